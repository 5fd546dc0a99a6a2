// The texts of replies. Each function writes at the end, and takes no memory where its text fits into what is spare.
ghost use Rattle.std.specs.Prelude.{◌≡◌, ◌+◌, ◌<◌, ◌≤◌, ◌++◌, ◌∷◌, [], length, flat_map, vec_len, OnOk, OnErr, IsFalse};
ghost use Rattle.std.specs.Vec.{vec_capacity};
ghost use Rattle.std.specs.Fmt.{decimal};
ghost use Rattle.std.specs.List.{join_with_byte};
ghost use Rattle.ip_base.specs.PathText.{space, slash, path_text};
ghost use Rattle.ip_spec.specs.Text.{hex_text, reply_text, words_of, limit_text, exit_text, seen_text, kind_text, counted, phase_words, left_words, produced_text};
ghost use Rattle.ip_spec.specs.declared.reply.Reply.TheVariants as Reply;
ghost use Rattle.ip_script.specs.Brief.{is_brief};

use ip_base::{Exit, Hash, Info, Limit, Memory, Number, Step};
use ip_spec::reply::{Difference, Head, Produced, Reply, Seen};
use ip_spec::tree::Item;
use itoa::Buffer;

/// Writes bytes as lower-case hex digits at the end of a text. It takes no memory where they fit into what is spare.
pub fn put_hex(bytes: &[u8], out: &mut Vec<u8>) -> Result<(), Memory>
    ensures ok { OnOk result (out.new.items ≡ out.old.items ++ hex_text bytes.now) }
    ensures room { OnErr result (vec_capacity out.old < vec_len out.old + length (hex_text bytes.now)) }
    ensures capacity { vec_capacity out.old ≤ vec_capacity out.new }
{
    let start = out.len();
    out.resize(start.saturating_add(2 * bytes.len()), 0)?;
    hex::encode_to_slice(bytes, &mut out[start..]).unwrap();
    Ok(())
}

fn put_value(bytes: &[u8], out: &mut Vec<u8>) -> Result<(), Memory>
    ensures ok { OnOk result (out.new.items ≡ out.old.items ++ join_with_byte space (words_of (Reply.Value bytes.now))) }
    ensures room { OnErr result (vec_capacity out.old < vec_len out.old + length (join_with_byte space (words_of (Reply.Value bytes.now)))) }
    ensures capacity { vec_capacity out.old ≤ vec_capacity out.new }
{
    out.extend_from_slice(b"value ")?;
    match bytes {
        [] => Ok(out.push(b'-')?),
        _ => put_hex(bytes, out),
    }
}

/// Writes a number in decimal digits at the end of a text. It takes no memory where they fit into what is spare.
pub fn put_number(n: u64, out: &mut Vec<u8>) -> Result<(), Memory>
    ensures ok { OnOk result (out.new.items ≡ out.old.items ++ decimal n) }
    ensures room { OnErr result (vec_capacity out.old < vec_len out.old + length (decimal n)) }
    ensures capacity { vec_capacity out.old ≤ vec_capacity out.new }
{
    let mut buffer = Buffer::new();
    Ok(out.extend_from_slice(buffer.format(n).as_bytes())?)
}

fn put_exit(exit: Exit, out: &mut Vec<u8>) -> Result<(), Memory>
    ensures ok { OnOk result (out.new.items ≡ out.old.items ++ exit_text exit) }
    ensures room { OnErr result (vec_capacity out.old < vec_len out.old + length (exit_text exit)) }
    ensures capacity { vec_capacity out.old ≤ vec_capacity out.new }
{
    match exit {
        Exit::Code(code) => {
            let mut buffer = Buffer::new();
            Ok(out.extend_from_slice(buffer.format(code).as_bytes())?)
        }
        Exit::Signal => Ok(out.extend_from_slice(b"signal")?),
    }
}

fn limit_word(limit: Limit) -> &'static [u8]
    ensures { result.now ≡ limit_text limit }
{
    match limit {
        Limit::Contents => b"contents",
        Limit::Depth => b"depth",
        Limit::Entries => b"entries",
        Limit::Parents => b"parents",
        Limit::Branches => b"branches",
        Limit::Space => b"space",
        Limit::Sequence => b"sequence",
        Limit::Attempt => b"attempt",
    }
}

fn produced_word(produced: Produced) -> &'static [u8]
    ensures { result.now ≡ produced_text produced }
{
    match produced {
        Produced::Mapping => b"mapping",
        Produced::Prefix => b"prefix",
    }
}

fn put_seen(seen: Seen, out: &mut Vec<u8>) -> Result<(), Memory>
    ensures ok { OnOk result (out.new.items ≡ out.old.items ++ seen_text seen) }
    ensures room { OnErr result (vec_capacity out.old < vec_len out.old + length (seen_text seen)) }
    ensures capacity { vec_capacity out.old ≤ vec_capacity out.new }
{
    match seen {
        Seen::Byte(byte) => put_hex(&[byte], out),
        Seen::End => Ok(out.extend_from_slice(b"end")?),
        Seen::Absent => Ok(out.extend_from_slice(b"none")?),
    }
}

// A word, and another behind it.
fn put_word(word: &[u8], text: &[u8], out: &mut Vec<u8>) -> Result<(), Memory>
    ensures ok { OnOk result (out.new.items ≡ out.old.items ++ (word.now ++ space ∷ text.now)) }
    ensures room { OnErr result (vec_capacity out.old < vec_len out.old + length (word.now ++ space ∷ text.now)) }
    ensures capacity { vec_capacity out.old ≤ vec_capacity out.new }
{
    out.extend_from_slice(word)?;
    out.push(b' ')?;
    Ok(out.extend_from_slice(text)?)
}

// A word, and a hash behind it.
fn put_hash(word: &[u8], hash: &Hash, out: &mut Vec<u8>) -> Result<(), Memory>
    ensures ok { OnOk result (out.new.items ≡ out.old.items ++ (word.now ++ space ∷ hex_text hash.now)) }
    ensures room { OnErr result (vec_capacity out.old < vec_len out.old + length (word.now ++ space ∷ hex_text hash.now)) }
    ensures capacity { vec_capacity out.old ≤ vec_capacity out.new }
{
    out.extend_from_slice(word)?;
    out.push(b' ')?;
    put_hex(hash.as_slice(), out)
}

// A word, and a number behind it.
fn put_count(word: &[u8], n: u64, out: &mut Vec<u8>) -> Result<(), Memory>
    ensures ok { OnOk result (out.new.items ≡ out.old.items ++ (word.now ++ space ∷ decimal n)) }
    ensures room { OnErr result (vec_capacity out.old < vec_len out.old + length (word.now ++ space ∷ decimal n)) }
    ensures capacity { vec_capacity out.old ≤ vec_capacity out.new }
{
    out.extend_from_slice(word)?;
    out.push(b' ')?;
    put_number(n, out)
}

// Each behind a space.
#[tactic(auto, using(crate::proofs::PutLemmas::put_more, crate::proofs::PutLemmas::put_none, crate::proofs::PutLemmas::put_long))]
fn put_hashes(hashes: &[Hash], out: &mut Vec<u8>) -> Result<(), Memory>
    ensures ok { OnOk result (out.new.items ≡ out.old.items ++ flat_map (λ h. space ∷ hex_text h) hashes.now) }
    ensures room { OnErr result (vec_capacity out.old < vec_len out.old + length (flat_map (λ h. space ∷ hex_text h) hashes.now)) }
    ensures capacity { vec_capacity out.old ≤ vec_capacity out.new }
{
    for hash in hashes {
        put_hash(b"", hash, out)?;
    }
    Ok(())
}

// Each behind a space.
#[tactic(auto, using(crate::proofs::PutLemmas::put_more, crate::proofs::PutLemmas::put_none, crate::proofs::PutLemmas::put_long))]
fn put_items(items: &[Item], out: &mut Vec<u8>) -> Result<(), Memory>
    ensures ok { OnOk result (out.new.items ≡ out.old.items ++ flat_map (λ e. space ∷ (kind_text e.dir ++ e.step)) items.now) }
    ensures room { OnErr result (vec_capacity out.old < vec_len out.old + length (flat_map (λ e. space ∷ (kind_text e.dir ++ e.step)) items.now)) }
    ensures capacity { vec_capacity out.old ≤ vec_capacity out.new }
{
    for item in items {
        put_item(item, out)?;
    }
    Ok(())
}

fn put_item(item: &Item, out: &mut Vec<u8>) -> Result<(), Memory>
    ensures ok { OnOk result (out.new.items ≡ out.old.items ++ space ∷ (kind_text item.now.dir ++ item.now.step)) }
    ensures room { OnErr result (vec_capacity out.old < vec_len out.old + length (space ∷ (kind_text item.now.dir ++ item.now.step))) }
    ensures capacity { vec_capacity out.old ≤ vec_capacity out.new }
{
    out.extend_from_slice(if item.dir { b" d:" } else { b" c:" })?;
    Ok(out.extend_from_slice(item.step.bytes())?)
}

// Each behind a space.
#[tactic(auto, using(crate::proofs::PutLemmas::put_more, crate::proofs::PutLemmas::put_none, crate::proofs::PutLemmas::put_long))]
fn put_heads(heads: &[Head], out: &mut Vec<u8>) -> Result<(), Memory>
    ensures ok { OnOk result (out.new.items ≡ out.old.items ++ flat_map (λ e. space ∷ (e.branch ++ space ∷ hex_text e.name)) heads.now) }
    ensures room { OnErr result (vec_capacity out.old < vec_len out.old + length (flat_map (λ e. space ∷ (e.branch ++ space ∷ hex_text e.name)) heads.now)) }
    ensures capacity { vec_capacity out.old ≤ vec_capacity out.new }
{
    for head in heads {
        put_head(head, out)?;
    }
    Ok(())
}

fn put_head(head: &Head, out: &mut Vec<u8>) -> Result<(), Memory>
    ensures ok { OnOk result (out.new.items ≡ out.old.items ++ space ∷ (head.now.branch ++ space ∷ hex_text head.now.name)) }
    ensures room { OnErr result (vec_capacity out.old < vec_len out.old + length (space ∷ (head.now.branch ++ space ∷ hex_text head.now.name))) }
    ensures capacity { vec_capacity out.old ≤ vec_capacity out.new }
{
    out.push(b' ')?;
    put_hash(head.branch.as_slice(), &head.name, out)
}

// Each behind a slash.
#[tactic(auto, using(crate::proofs::PutLemmas::put_more, crate::proofs::PutLemmas::put_none, crate::proofs::PutLemmas::put_long))]
fn put_steps(steps: &[Step], out: &mut Vec<u8>) -> Result<(), Memory>
    ensures ok { OnOk result (out.new.items ≡ out.old.items ++ flat_map (λ s. slash ∷ s) steps.now) }
    ensures room { OnErr result (vec_capacity out.old < vec_len out.old + length (flat_map (λ s. slash ∷ s) steps.now)) }
    ensures capacity { vec_capacity out.old ≤ vec_capacity out.new }
{
    for step in steps {
        put_step(step, out)?;
    }
    Ok(())
}

fn put_step(step: &Step, out: &mut Vec<u8>) -> Result<(), Memory>
    ensures ok { OnOk result (out.new.items ≡ out.old.items ++ slash ∷ step.now) }
    ensures room { OnErr result (vec_capacity out.old < vec_len out.old + length (slash ∷ step.now)) }
    ensures capacity { vec_capacity out.old ≤ vec_capacity out.new }
{
    out.push(b'/')?;
    Ok(out.extend_from_slice(step.bytes())?)
}

fn put_path(steps: &[Step], out: &mut Vec<u8>) -> Result<(), Memory>
    ensures ok { OnOk result (out.new.items ≡ out.old.items ++ path_text steps.now) }
    ensures room { OnErr result (vec_capacity out.old < vec_len out.old + length (path_text steps.now)) }
    ensures capacity { vec_capacity out.old ≤ vec_capacity out.new }
{
    match steps {
        [] => Ok(()),
        [first, rest @ ..] => {
            out.extend_from_slice(first.bytes())?;
            put_steps(rest, out)
        }
    }
}

fn put_conflict(steps: &[Step], out: &mut Vec<u8>) -> Result<(), Memory>
    ensures ok { OnOk result (out.new.items ≡ out.old.items ++ join_with_byte space (words_of (Reply.Conflict steps.now))) }
    ensures room { OnErr result (vec_capacity out.old < vec_len out.old + length (join_with_byte space (words_of (Reply.Conflict steps.now)))) }
    ensures capacity { vec_capacity out.old ≤ vec_capacity out.new }
{
    out.extend_from_slice(b"conflict ")?;
    put_path(steps, out)
}

// A word, the number of hashes, and each.
fn put_counted(word: &[u8], hashes: &[Hash], out: &mut Vec<u8>) -> Result<(), Memory>
    ensures ok { OnOk result (out.new.items ≡ out.old.items ++ join_with_byte space (word.now ∷ counted hashes.now)) }
    ensures room { OnErr result (vec_capacity out.old < vec_len out.old + length (join_with_byte space (word.now ∷ counted hashes.now))) }
    ensures capacity { vec_capacity out.old ≤ vec_capacity out.new }
{
    put_count(word, hashes.len() as u64, out)?;
    put_hashes(hashes, out)
}

fn put_listing(items: &[Item], out: &mut Vec<u8>) -> Result<(), Memory>
    ensures ok { OnOk result (out.new.items ≡ out.old.items ++ join_with_byte space (words_of (Reply.List items.now))) }
    ensures room { OnErr result (vec_capacity out.old < vec_len out.old + length (join_with_byte space (words_of (Reply.List items.now)))) }
    ensures capacity { vec_capacity out.old ≤ vec_capacity out.new }
{
    put_count(b"list", items.len() as u64, out)?;
    put_items(items, out)
}

fn put_branches(heads: &[Head], out: &mut Vec<u8>) -> Result<(), Memory>
    ensures ok { OnOk result (out.new.items ≡ out.old.items ++ join_with_byte space (words_of (Reply.Branches heads.now))) }
    ensures room { OnErr result (vec_capacity out.old < vec_len out.old + length (join_with_byte space (words_of (Reply.Branches heads.now)))) }
    ensures capacity { vec_capacity out.old ≤ vec_capacity out.new }
{
    put_count(b"branches", heads.len() as u64, out)?;
    put_heads(heads, out)
}

fn put_commit(
    name: &Hash,
    number: Number,
    root: &Hash,
    parents: &[Hash],
    info: &Info,
    out: &mut Vec<u8>,
) -> Result<(), Memory>
    ensures ok { OnOk result (out.new.items ≡ out.old.items ++ join_with_byte space (words_of (Reply.Commit name.now number root.now parents.now info.now))) }
    ensures room { OnErr result (vec_capacity out.old < vec_len out.old + length (join_with_byte space (words_of (Reply.Commit name.now number root.now parents.now info.now)))) }
    ensures capacity { vec_capacity out.old ≤ vec_capacity out.new }
{
    put_hash(b"commit", name, out)?;
    put_count(b"", number.get(), out)?;
    put_hash(b"", root, out)?;
    put_count(b"", info.date, out)?;
    put_word(b"", info.author.as_slice(), out)?;
    put_parents(parents, info.message.as_slice(), out)
}

// The number of parents, each, and the message, each behind a space.
fn put_parents(parents: &[Hash], message: &[u8], out: &mut Vec<u8>) -> Result<(), Memory>
    ensures ok { OnOk result (out.new.items ≡ out.old.items ++ space ∷ join_with_byte space (counted parents.now ++ message.now ∷ [])) }
    ensures room { OnErr result (vec_capacity out.old < vec_len out.old + length (space ∷ join_with_byte space (counted parents.now ++ message.now ∷ []))) }
    ensures capacity { vec_capacity out.old ≤ vec_capacity out.new }
{
    put_counted(b"", parents, out)?;
    put_word(b"", message, out)
}

fn put_collected(floor: Number, left: u64, out: &mut Vec<u8>) -> Result<(), Memory>
    ensures ok { OnOk result (out.new.items ≡ out.old.items ++ join_with_byte space (words_of (Reply.Collected floor left))) }
    ensures room { OnErr result (vec_capacity out.old < vec_len out.old + length (join_with_byte space (words_of (Reply.Collected floor left)))) }
    ensures capacity { vec_capacity out.old ≤ vec_capacity out.new }
{
    put_count(b"collected", floor.get(), out)?;
    if left > 0 {
        put_count(b" left", left, out)
    } else {
        Ok(())
    }
}

fn put_phase(at: Option<Number>, out: &mut Vec<u8>) -> Result<(), Memory>
    ensures ok { OnOk result (out.new.items ≡ out.old.items ++ join_with_byte space (phase_words at)) }
    ensures room { OnErr result (vec_capacity out.old < vec_len out.old + length (join_with_byte space (phase_words at))) }
    ensures capacity { vec_capacity out.old ≤ vec_capacity out.new }
{
    match at {
        None => Ok(out.extend_from_slice(b"idle")?),
        Some(number) => put_count(b"at", number.get(), out),
    }
}

fn put_stat(
    floor: Number,
    next: Number,
    branches: u32,
    at: Option<Number>,
    out: &mut Vec<u8>,
) -> Result<(), Memory>
    ensures ok { OnOk result (out.new.items ≡ out.old.items ++ join_with_byte space (words_of (Reply.Stat floor next branches at))) }
    ensures room { OnErr result (vec_capacity out.old < vec_len out.old + length (join_with_byte space (words_of (Reply.Stat floor next branches at)))) }
    ensures capacity { vec_capacity out.old ≤ vec_capacity out.new }
{
    put_count(b"stat", floor.get(), out)?;
    put_count(b"", next.get(), out)?;
    put_count(b"", branches as u64, out)?;
    out.push(b' ')?;
    put_phase(at, out)
}

fn put_difference(difference: &Difference, out: &mut Vec<u8>) -> Result<(), Memory>
    ensures ok { OnOk result (out.new.items ≡ out.old.items ++ join_with_byte space (words_of (Reply.Rejected difference.now))) }
    ensures room { OnErr result (vec_capacity out.old < vec_len out.old + length (join_with_byte space (words_of (Reply.Rejected difference.now)))) }
    ensures capacity { vec_capacity out.old ≤ vec_capacity out.new }
{
    put_word(b"rejected", produced_word(difference.file), out)?;
    put_count(b"", difference.at, out)?;
    out.push(b' ')?;
    put_seen(difference.want, out)?;
    out.push(b' ')?;
    put_seen(difference.got, out)
}

// A reply's words.
fn put_words(reply: &Reply, out: &mut Vec<u8>) -> Result<(), Memory>
    ensures ok { OnOk result (out.new.items ≡ out.old.items ++ join_with_byte space (words_of reply.now)) }
    ensures room { OnErr result (vec_capacity out.old < vec_len out.old + length (join_with_byte space (words_of reply.now))) }
    ensures capacity { vec_capacity out.old ≤ vec_capacity out.new }
{
    match reply {
        Reply::Accepted => Ok(out.extend_from_slice(b"ok")?),
        Reply::Absent => Ok(out.extend_from_slice(b"absent")?),
        Reply::Contents => Ok(out.extend_from_slice(b"contents")?),
        Reply::Idle => Ok(out.extend_from_slice(b"idle")?),
        Reply::Running => Ok(out.extend_from_slice(b"running")?),
        Reply::Cancelled => Ok(out.extend_from_slice(b"cancelled")?),
        Reply::CancelledOrphan => Ok(out.extend_from_slice(b"cancelled orphan")?),
        Reply::StartFault => Ok(out.extend_from_slice(b"start-fault")?),
        Reply::WaitFault => Ok(out.extend_from_slice(b"wait-fault")?),
        Reply::Memory => Ok(out.extend_from_slice(b"memory")?),
        Reply::Bad(at) => put_count(b"bad", *at, out),
        Reply::At(hash) => put_hash(b"at", hash, out),
        Reply::Committed(hash) => put_hash(b"committed", hash, out),
        Reply::Merged(hash) => put_hash(b"merged", hash, out),
        Reply::Current(hash) => put_hash(b"current", hash, out),
        Reply::Forward(hash) => put_hash(b"forward", hash, out),
        Reply::Started(hash) => put_hash(b"started", hash, out),
        Reply::Hash(hash) => put_hash(b"hash", hash, out),
        Reply::Existing(hash) => put_hash(b"existing", hash, out),
        Reply::HeadMoved(hash) => put_hash(b"head-moved", hash, out),
        Reply::Busy(hash) => put_hash(b"busy", hash, out),
        Reply::NoCommit(hash) => put_hash(b"no-commit", hash, out),
        Reply::Dir(n) => put_count(b"dir", *n as u64, out),
        Reply::Leaving(n) => put_count(b"leaving", n.get(), out),
        Reply::GivenUp(n) => put_count(b"given-up", n.get(), out),
        Reply::Bases(n) => put_count(b"bases", *n as u64, out),
        Reply::Checking(n) => put_count(b"checking", *n, out),
        _ => put_longer(reply, out),
    }
}

// The words of the other replies.
fn put_longer(reply: &Reply, out: &mut Vec<u8>) -> Result<(), Memory>
    requires { IsFalse (is_brief reply.now) }
    ensures ok { OnOk result (out.new.items ≡ out.old.items ++ join_with_byte space (words_of reply.now)) }
    ensures room { OnErr result (vec_capacity out.old < vec_len out.old + length (join_with_byte space (words_of reply.now))) }
    ensures capacity { vec_capacity out.old ≤ vec_capacity out.new }
{
    match reply {
        Reply::Collected { floor, left } => put_collected(*floor, *left, out),
        Reply::Value(bytes) => put_value(bytes.as_slice(), out),
        Reply::List(items) => put_listing(items.as_slice(), out),
        Reply::Branches(heads) => put_branches(heads.as_slice(), out),
        Reply::Commit {
            name,
            number,
            root,
            parents,
            info,
        } => put_commit(name, *number, root, parents.as_slice(), info, out),
        Reply::Log(hashes) => put_counted(b"log", hashes.as_slice(), out),
        Reply::Lcas(hashes) => put_counted(b"lcas", hashes.as_slice(), out),
        Reply::Held(name) => put_word(b"held", name.as_slice(), out),
        Reply::NoBranch(name) => put_word(b"no-branch", name.as_slice(), out),
        Reply::Conflict(path) => put_conflict(path.steps(), out),
        Reply::Limit(limit) => put_word(b"limit", limit_word(*limit), out),
        Reply::RejectedExit(exit) => {
            out.extend_from_slice(b"rejected exit ")?;
            put_exit(*exit, out)
        }
        Reply::Rejected(difference) => put_difference(difference, out),
        Reply::Stat {
            floor,
            next,
            branches,
            at,
        } => put_stat(*floor, *next, *branches, *at, out),
        _ => Ok(()),
    }
}

/// Writes a reply's line, with its line feed, at the end. Where the line fits into what the vector has spare, no memory is taken.
#[tactic(auto, unfolding(ip_spec::specs::Text::reply_text))]
pub fn reply_text(reply: &Reply, out: &mut Vec<u8>) -> Result<(), Memory>
    ensures ok { OnOk result (out.new.items ≡ out.old.items ++ reply_text reply.now) }
    ensures room { OnErr result (vec_capacity out.old < vec_len out.old + length (reply_text reply.now)) }
    ensures capacity { vec_capacity out.old ≤ vec_capacity out.new }
{
    put_words(reply, out)?;
    Ok(out.push(b'\n')?)
}
