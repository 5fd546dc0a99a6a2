// Trees as lists of paths and contents, ascending by path. Each call does to the list what the definition says of the map.
ghost use Rattle.std.specs.Prelude.{◌≡◌, ◌<◌, ◌≤◌, ◌++◌, [], ◌∷◌, ◌&&◌, cond, not, length, map, fold, max, is_some, insert, option_map, slice_index_or, slice_set, nat_lt, IfOk, IfErr, OnOk};
ghost use Rattle.std.specs.FinMap.Entries.{find, put as entered, where_key};
ghost use Rattle.ip_spec.specs.Map.{get, len};
ghost use Rattle.ip_spec.specs.Path.{bytes_cmp, path_cmp, after_prefix, is_prefix};
ghost use Rattle.ip_spec.specs.Tree.{Tree as Map, is_empty, subtree, remove, place, put as put_at, height, widest, ways, entries_of, got_by, listed_by, got_at, listed_at, is_root};
ghost use Rattle.ip_spec.specs.Shape.{directory_name, root_name};
ghost use Rattle.ip_spec.specs.Step.{entries_limit, longest_value};
ghost use Rattle.ip_model_trees.specs.Small.{IsSmall};
ghost use Rattle.ip_model_trees.specs.Parts.{put_some, rest_of, beside, first_in, step_in, item_in};

use crate::names::{Entry, contents_name, entries_name};
use ip_base::limit::ENTRIES_MAX;
use ip_base::{Blob, Hash, Items, Memory, Step};
use ip_spec::tree::{Got, Item, Listed, Listing};
use std::alloc::Global;
use std::cmp::Ordering;
use std::marker::Model;
use std::slice;

/// A path, and the contents that stand there.
pub type Part = (Items<Step>, Blob);

/// A tree as the list of its contents, ascending by path.
#[derive(Drop)]
pub struct Tree {
    pub(crate) parts: Vec<Part>,
}

impl Model for Tree {
    ghost use Rattle.std.specs.Prelude.{List};
    ghost use Rattle.ip_spec.specs.Path.{Path, Bytes};

    ghost Value = { List (Path × Bytes) };

    ghost view = { λ t. t.parts.items };
}

impl Tree {
    /// The tree without contents.
    pub fn none(alloc: Global) -> Self
        ensures { result ≡ [] }
    {
        Tree {
            parts: Vec::new(alloc),
        }
    }

    /// The same tree once more.
    pub fn copy(&self, alloc: Global) -> Result<Tree, Memory>
        ensures { IfOk result (λ t. t ≡ self.now) }
    {
        let mut parts = Vec::new(alloc);
        for part in &self.parts {
            push_unless(alloc, &mut parts, false, part)?;
        }
        Ok(Tree { parts })
    }

    /// The contents at a path.
    pub fn get(&self, path: &[Step]) -> Option<&Blob>
        ensures { option_map (λ b. b.now) result ≡ find path_cmp path.now self.now }
    {
        for part in &self.parts {
            if path.cmp(part.0.as_slice()).is_eq() {
                return Some(&part.1);
            }
        }
        None
    }

    /// Whether there is nothing.
    pub fn is_empty(&self) -> bool
        ensures { (t : Map) → self.now ≡ t.entries → result ≡ is_empty t }
    {
        self.parts.is_empty()
    }

    /// What stands at a path and under it, seen from there.
    pub fn subtree(&self, alloc: Global, path: &[Step]) -> Result<Tree, Memory>
        ensures { (t : Map) → self.now ≡ t.entries → IfOk result (λ u. u ≡ (subtree t path.now).entries) }
    {
        let mut parts = Vec::new(alloc);
        for part in &self.parts {
            put_rest(alloc, &mut parts, path, part)?;
        }
        Ok(Tree { parts })
    }

    /// The tree with nothing at a path and under it.
    pub fn remove(&self, alloc: Global, path: &[Step]) -> Result<Tree, Memory>
        ensures { (t : Map) → self.now ≡ t.entries → IfOk result (λ u. u ≡ (remove t path.now).entries) }
    {
        let parts = self.beside(alloc, path, false)?;
        Ok(Tree { parts })
    }

    /// The tree with another at a path, in place of what stands there, under it, or at a prefix of it.
    pub fn place(&self, alloc: Global, path: &[Step], sub: &Tree) -> Result<Tree, Memory>
        ensures { (t u : Map) → self.now ≡ t.entries → sub.now ≡ u.entries → IfOk result (λ v. v ≡ (place t path.now u).entries) }
    {
        let mut parts = self.beside(alloc, path, true)?;
        for part in &sub.parts {
            put(
                &mut parts,
                joined(alloc, path, part.0.as_slice())?,
                part.1.copy(alloc)?,
            )?;
        }
        Ok(Tree { parts })
    }

    /// The tree with contents at a path.
    pub fn put(&self, alloc: Global, path: &[Step], contents: Blob) -> Result<Tree, Memory>
        ensures { (t : Map) → self.now ≡ t.entries → IfOk result (λ u. u ≡ (put_at t path.now contents).entries) }
    {
        let sub = Tree::contents(alloc, contents)?;
        self.place(alloc, path, &sub)
    }

    /// The greatest number of steps.
    pub fn height(&self) -> usize
        ensures { (t : Map) → self.now ≡ t.entries → result ≡ height t }
    {
        let mut height = 0;
        for part in &self.parts {
            height = height.max(part.0.len());
        }
        height
    }

    /// The greatest number of bytes of contents.
    pub fn longest(&self) -> usize
        ensures { (t : Map) → self.now ≡ t.entries → result ≡ longest_value t }
    {
        let mut longest = 0;
        for part in &self.parts {
            longest = longest.max(part.1.len());
        }
        longest
    }

    /// Whether a directory has more entries than it may. None has more than there are contents.
    pub fn is_wide(&self, alloc: Global) -> Result<bool, Memory>
        ensures { (t : Map) → self.now ≡ t.entries → IfOk result (λ wide. wide ≡ nat_lt entries_limit (widest t)) }
    {
        if self.parts.len() <= ENTRIES_MAX {
            return Ok(false);
        }
        Ok(self.widest(alloc)? > ENTRIES_MAX)
    }

    // The most entries of one directory.
    fn widest(&self, alloc: Global) -> Result<usize, Memory>
        ensures { (t : Map) → self.now ≡ t.entries → IfOk result (λ n. n ≡ widest t) }
    {
        let mut widest = 0;
        for part in &self.parts {
            widest = self.widest_on(alloc, part.0.as_slice(), widest)?;
        }
        Ok(widest)
    }

    /// What stands at a path, as `get` answers it. Want of memory is answered also of a directory of 2^32 entries.
    pub fn got_at(&self, alloc: Global, path: &[Step]) -> Result<Got, Memory>
        ensures { (t : Map) → self.now ≡ t.entries → IfOk result (λ got. got ≡ got_at t path.now) }
    {
        let sub = self.subtree(alloc, path)?;
        sub.got(alloc, sub.is_nothing(path))
    }

    /// What stands at a path, as `list` answers it.
    pub fn listed_at(&self, alloc: Global, path: &[Step]) -> Result<Listed, Memory>
        ensures { (t : Map) → self.now ≡ t.entries → IfOk result (λ listed. listed ≡ listed_at t path.now) }
    {
        let sub = self.subtree(alloc, path)?;
        sub.listed(alloc, sub.is_nothing(path))
    }

    /// The name of the root.
    pub fn root_name(&self, alloc: Global) -> Result<Hash, Memory>
        ensures { (t : Map) → IsSmall t → self.now ≡ t.entries → IfOk result (λ name. name ≡ root_name t) }
    {
        self.directory_name(alloc, self.height())
    }

    // The name of the directory at the root of a tree of at most this height.
    fn directory_name(&self, alloc: Global, levels: usize) -> Result<Hash, Memory>
        ensures { (t : Map) → IsSmall t → self.now ≡ t.entries → IfOk result (λ name. name ≡ directory_name levels t) }
    {
        if levels == 0 {
            return entries_name(alloc, &[]);
        }
        let entries = self.entries(alloc)?;
        let mut named = Vec::new(alloc);
        for entry in &entries {
            let name = match entry.1.get(&[]) {
                Some(bytes) => contents_name(bytes.as_slice()),
                None => entry.1.directory_name(alloc, levels - 1)?,
            };
            named.push(Entry {
                step: entry.0.copy(alloc)?,
                is_directory: !entry.1.is_contents(),
                name,
            })?;
        }
        entries_name(alloc, named.as_slice())
    }

    // What stands at a path, seen from there, and whether there is nothing. The root is a directory though it may be empty.
    fn got(&self, alloc: Global, is_nothing: bool) -> Result<Got, Memory>
        ensures { (u : Map) → self.now ≡ u.entries → IfOk result (λ got. got ≡ got_by (get u []) is_nothing u) }
    {
        if let Some(bytes) = self.get(&[]) {
            return Ok(Got::Value(bytes.copy(alloc)?));
        }
        if is_nothing {
            return Ok(Got::Absent);
        }
        Ok(Got::Dir(count_of(self.entry_count(alloc)?)?))
    }

    fn listed(&self, alloc: Global, is_nothing: bool) -> Result<Listed, Memory>
        ensures { (u : Map) → self.now ≡ u.entries → IfOk result (λ listed. listed ≡ listed_by (get u []) is_nothing u) }
    {
        if self.is_contents() {
            return Ok(Listed::Contents);
        }
        if is_nothing {
            return Ok(Listed::Absent);
        }
        let entries = self.entries(alloc)?;
        Ok(Listed::Entries(listing(alloc, entries.as_slice())?))
    }

    fn is_nothing(&self, path: &[Step]) -> bool
        ensures { (u : Map) → self.now ≡ u.entries → result ≡ (is_empty u && not (is_root path.now)) }
    {
        self.is_empty() && !is_root(path)
    }

    // The entries of the directory at the root, and what stands there.
    fn entries(&self, alloc: Global) -> Result<Vec<(Step, Tree)>, Memory>
        ensures { (t : Map) → self.now ≡ t.entries → IfOk result (λ es. es.items ≡ map (λ e. (e.0, e.1.entries)) (entries_of t).entries) }
    {
        let mut entries = Vec::new(alloc);
        for part in &self.parts {
            self.put_first(alloc, &mut entries, part)?;
        }
        Ok(entries)
    }

    // Puts the first step of an entry, and what stands there.
    fn put_first(
        &self,
        alloc: Global,
        entries: &mut Vec<(Step, Tree)>,
        part: &Part,
    ) -> Result<(), Memory>
        ensures { (t : Map) → self.now ≡ t.entries → OnOk result (entries.new.items ≡ put_some bytes_cmp (first_in t part.now) entries.old.items) }
    {
        match part.0.as_slice() {
            [step, ..] => {
                let sub = self.subtree(alloc, slice::from_ref(step))?;
                put(entries, step.copy(alloc)?, sub)
            }
            [] => Ok(()),
        }
    }

    // The most entries of a directory on the way to a path, or more where more were found before.
    fn widest_on(&self, alloc: Global, path: &[Step], before: usize) -> Result<usize, Memory>
        ensures { (t : Map) → self.now ≡ t.entries → IfOk result (λ n. n ≡ fold (λ m way. max m (len (entries_of (subtree t way)))) before (ways path.now)) }
    {
        let mut widest = before;
        for n in 0..path.len() {
            let sub = self.subtree(alloc, &path[..n])?;
            widest = widest.max(sub.entry_count(alloc)?);
        }
        Ok(widest)
    }

    fn entry_count(&self, alloc: Global) -> Result<usize, Memory>
        ensures { (t : Map) → self.now ≡ t.entries → IfOk result (λ n. n ≡ len (entries_of t)) }
    {
        let mut steps = Vec::new(alloc);
        for part in &self.parts {
            put_step(alloc, &mut steps, part)?;
        }
        Ok(steps.as_slice().len())
    }

    // Whether contents stand at the root.
    fn is_contents(&self) -> bool
        ensures { result ≡ is_some (find path_cmp [] self.now) }
    {
        self.get(&[]).is_some()
    }

    // Contents as they are seen from where they stand.
    fn contents(alloc: Global, contents: Blob) -> Result<Tree, Memory>
        ensures { IfOk result (λ t. t ≡ ([], contents) ∷ []) }
    {
        let mut parts = Vec::new(alloc);
        parts.push((Items::empty(alloc), contents))?;
        Ok(Tree { parts })
    }

    // What is not at a path or under it and, if what is above goes too, not at a prefix of it.
    fn beside(&self, alloc: Global, path: &[Step], above: bool) -> Result<Vec<Part>, Memory>
        ensures { IfOk result (λ parts. parts.items ≡ where_key path_cmp (beside path.now above) self.now) }
    {
        let mut parts = Vec::new(alloc);
        for part in &self.parts {
            let goes = goes(path, part.0.as_slice(), above);
            push_unless(alloc, &mut parts, goes, part)?;
        }
        Ok(parts)
    }
}

// Puts the first step of an entry, if it is not there.
fn put_step(alloc: Global, steps: &mut Vec<(Step, ())>, part: &Part) -> Result<(), Memory>
    ensures { (t : Map) → OnOk result (steps.new.items ≡ put_some bytes_cmp (step_in t part.now) steps.old.items) }
{
    match part.0.as_slice() {
        [step, ..] => put(steps, step.copy(alloc)?, ()),
        [] => Ok(()),
    }
}

// Whether a path is another or under it or, if what is above goes too, a prefix of it.
fn goes(path: &[Step], key: &[Step], above: bool) -> bool
    ensures { beside path.now above key.now ≡ not result }
{
    is_prefix(path, key) || (above && is_prefix(key, path))
}

fn is_root(path: &[Step]) -> bool
    ensures { result ≡ is_root path.now }
{
    match path {
        [] => true,
        [_, ..] => false,
    }
}

fn listing(alloc: Global, entries: &[(Step, Tree)]) -> Result<Listing, Memory>
    ensures { IfOk result (λ items. items ≡ map item_in entries.now) }
{
    let mut items = Items::empty(alloc);
    for entry in entries {
        items.push(Item {
            step: entry.0.copy(alloc)?,
            dir: !entry.1.is_contents(),
        })?;
    }
    Ok(items)
}

/// The number as a `u32`. Want of memory is answered also where it is none.
pub fn count_of(count: usize) -> Result<u32, Memory>
    ensures { IfOk result (λ n. n ≡ count) }
{
    if count > 4294967295 {
        return Err(Memory);
    }
    Ok(count as u32)
}

// Puts an entry as it is seen from a path, if it is under it.
fn put_rest(alloc: Global, parts: &mut Vec<Part>, path: &[Step], part: &Part) -> Result<(), Memory>
    ensures { OnOk result (parts.new.items ≡ put_some path_cmp (rest_of path.now part.now) parts.old.items) }
{
    match after_prefix(path, part.0.as_slice()) {
        Some(rest) => put(parts, joined(alloc, &[], rest)?, part.1.copy(alloc)?),
        None => Ok(()),
    }
}

// Puts a copy of an entry behind all others, unless it goes.
fn push_unless(alloc: Global, parts: &mut Vec<Part>, goes: bool, part: &Part) -> Result<(), Memory>
    ensures { OnOk result (parts.new.items ≡ parts.old.items ++ cond goes [] (part.now ∷ [])) }
{
    if goes {
        return Ok(());
    }
    parts.push((joined(alloc, &[], part.0.as_slice())?, part.1.copy(alloc)?))?;
    Ok(())
}

/// The steps of a path, and behind them those of another.
pub fn joined(alloc: Global, path: &[Step], behind: &[Step]) -> Result<Items<Step>, Memory>
    ensures { IfOk result (λ all. all ≡ path.now ++ behind.now) }
{
    let mut all = Items::empty(alloc);
    for step in path {
        all.push(step.copy(alloc)?)?;
    }
    for step in behind {
        all.push(step.copy(alloc)?)?;
    }
    Ok(all)
}

/// Whether a path is a prefix of another, or the same.
pub fn is_prefix(prefix: &[Step], path: &[Step]) -> bool
    ensures { result ≡ is_prefix prefix.now path.now }
{
    after_prefix(prefix, path).is_some()
}

/// Puts a value at its place in a list that ascends by keys, or in place of the value at the key.
pub fn put<K: Ord + Drop, V: Drop>(list: &mut Vec<(K, V)>, key: K, value: V) -> Result<(), Memory>
    ensures { OnOk result (list.new.items ≡ entered K.cmp key value list.old.items) }
{
    match place_of(list.as_slice(), &key) {
        Ok(i) => list[i].1 = value,
        Err(i) => list.insert(i, (key, value))?,
    }
    Ok(())
}

// Where a key stands in a list that ascends by keys, or would stand.
fn place_of<K: Ord, V>(list: &[(K, V)], key: &K) -> Result<usize, usize>
    ensures ok { IfOk result (λ i. (i < length list.now) × ((e : K × V) (v : V) → e ≡ slice_index_or list.now i e → slice_set list.now i (e.0, v) ≡ entered K.cmp key.now v list.now)) }
    ensures err { IfErr result (λ i. (i ≤ length list.now) × ((v : V) → insert list.now i (key.now, v) ≡ entered K.cmp key.now v list.now)) }
{
    for i in 0..list.len() {
        match key.cmp(&list[i].0) {
            Ordering::Less => return Err(i),
            Ordering::Equal => return Ok(i),
            Ordering::Greater => {}
        }
    }
    Err(list.len())
}

/// The rest of a path behind a prefix of it.
pub fn after_prefix<'a>(prefix: &[Step], path: &'a [Step]) -> Option<&'a [Step]>
    ensures { option_map (λ rest. rest.now) result ≡ after_prefix prefix.now path.now }
{
    let mut left = path;
    for step in prefix {
        match left {
            [first, rest @ ..] if step.cmp(first).is_eq() => left = rest,
            _ => return None,
        }
    }
    Some(left)
}
