// The records that a batch makes.
ghost use Rattle.std.specs.Prelude.{◌≡◌, ◌≢◌, ◌++◌, Some, IsSome, IfErr, IfOk, OnOk};
ghost use Rattle.ip_save.specs.Batches.{AreFields, commit_record, fields_told};
ghost use Rattle.ip_save.specs.Laid.{IsHighFault};
ghost use Rattle.ip_shape.specs.Heights.{inode_height, leaf_height};
ghost use Rattle.ip_shape.specs.PartNames.{inode_name, leaf_name};
ghost use Rattle.ip_save.specs.declared.batch.SaveFault.TheVariants as SaveFault;
ghost use Rattle.ip_spec.specs.Record.{Fits, name_of, spelling};
ghost use Rattle.ip_spec.specs.declared.record.Record.TheVariants as Record;

use crate::inode::inode_fault;
use crate::leaf::leaf_fault;
use crate::{CommitFields, SaveFault};
use ip_base::{Hash, Memory, see_name};
use ip_object::{commit_name, encode_branch, encode_commit, encode_into, name_of_record};
use ip_spec::record::{InodeChildren, LeafEntries, Record, Ref};

// Puts a record that has a name behind what is there, and answers the name.
fn put_named(rec: &Record, out: &mut Vec<u8>) -> Result<Hash, Memory>
    requires fits { Fits 1 rec.now }
    requires named { IsSome (name_of rec.now) }
    ensures bytes { OnOk result (out.new.items ≡ out.old.items ++ spelling rec.now) }
    ensures name { IfOk result (λ name. name_of rec.now ≡ Some name) }
{
    encode_into(rec, out)?;
    match name_of_record(rec) {
        Some(name) => Ok(name),
        None => unreachable!(),
    }
}

/// Puts the record of a leaf, where one may have these entries, and answers its name.
pub fn put_leaf(leaf: LeafEntries, out: &mut Vec<u8>) -> Result<Hash, SaveFault>
    ensures bytes { OnOk result (out.new.items ≡ out.old.items ++ spelling (Record.Leaf leaf)) }
    ensures name { IfOk result (λ name. name ≡ leaf_name leaf) }
    ensures fits { OnOk result (Fits 1 (Record.Leaf leaf)) }
    ensures cause { IfErr result (IsHighFault (leaf_height leaf)) }
{
    if let Some(fault) = leaf_fault(leaf.as_slice()) {
        return Err(fault);
    }
    let name = put_named(&Record::Leaf(leaf), out)?;
    Ok(name)
}

/// Puts the record of an inode at a depth, where one may have these children, and answers its name.
pub fn put_inode(depth: u8, children: InodeChildren, out: &mut Vec<u8>) -> Result<Hash, SaveFault>
    ensures bytes { OnOk result (out.new.items ≡ out.old.items ++ spelling (Record.Inode depth children)) }
    ensures name { IfOk result (λ name. name ≡ inode_name depth children) }
    ensures fits { OnOk result (Fits 1 (Record.Inode depth children)) }
    ensures cause { IfErr result (IsHighFault (inode_height children)) }
{
    if let Some(fault) = inode_fault(depth, children.as_slice()) {
        return Err(fault);
    }
    let name = put_named(&Record::Inode { depth, children }, out)?;
    Ok(name)
}

/// Puts the record of the commit whose root is at the reference, and answers its name.
pub fn put_commit(fields: &CommitFields, root: &Ref, out: &mut Vec<u8>) -> Result<Hash, Memory>
    requires { AreFields (fields_told fields.now) }
    ensures bytes { OnOk result (out.new.items ≡ out.old.items ++ spelling (commit_record (fields_told fields.now) root.now)) }
    ensures name { IfOk result (λ name. name_of (commit_record (fields_told fields.now) root.now) ≡ Some name) }
    ensures fits { OnOk result (Fits 1 (commit_record (fields_told fields.now) root.now)) }
{
    see_name(&root.name);
    let _at = root.at;
    let parents = fields.parents.as_slice();
    encode_commit(fields.number, root, parents, &fields.info, out)?;
    Ok(commit_name(root, parents, &fields.info))
}

/// Puts the record that sets the branch to the commit.
pub fn put_branch(fields: &CommitFields, out: &mut Vec<u8>) -> Result<(), Memory>
    requires { AreFields (fields_told fields.now) }
    ensures bytes { OnOk result (out.new.items ≡ out.old.items ++ spelling (Record.BranchSet fields.now.number fields.now.branch)) }
    ensures fits { OnOk result (Fits 1 (Record.BranchSet fields.now.number fields.now.branch)) }
{
    encode_branch(fields.number, fields.branch.as_slice(), out)
}
