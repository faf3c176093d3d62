// A tree in memory.
ghost use Rattle.std.specs.Prelude.{◌≡◌, ◌≤◌, ◌<◌, ◌↔◌, ◌^◌, None, Some, [], All, IfOk, IfErr, OnOk, OnErr, Err, true, false, not, is_some, is_err, IsTrue, length, map};
ghost use Rattle.std.specs.Option.{option_map, unwrap_or};
ghost use Rattle.std.specs.FinMap.{get};
ghost use Rattle.dired_text.specs.Counts.{raised};
ghost use Rattle.dired_text.specs.Paths.{Names};
ghost use Rattle.tree_core.specs.FileTree.{CanDo, HasMode, IsDir, IsEmptyAt, IsFile, IsMode, Stands, kind_of, mode_of, moved, root_tree};
ghost use Rattle.tree_core.specs.History.{Began, IsSound, current_tree, next_number as number_told};
ghost use Rattle.tree_core.specs.Fields.{IsMeta, IsRead, RiseStrictly, names_in};
ghost use Rattle.tree_core.specs.SubLists.{pending_calls};
ghost use Rattle.mem_tree.specs.Stores.{tree_of, times_of};
ghost use Rattle.mem_tree.specs.Times.{times_now};
ghost use Rattle.mem_tree.specs.Looks.{look_failed, read_failed};
ghost use Rattle.mem_tree.specs.Records.{history_of, AllWere};
ghost use Rattle.mem_tree.specs.Choices.{takes};
ghost use Rattle.mem_tree.specs.Images.{picked, emptied as emptied_of, EndsAt, synced_history, stand_in, stand_of};
ghost use Rattle.mem_tree.specs.Built.{built, next_of, times_built, first_bad, Refuses};
ghost use Rattle.mem_tree.specs.Allowed.{IsSound-prop, AllWere-prop, FileTree-prop, Times-prop};

use crate::attempt::{Attempt, do_call, redo};
use crate::build::store_of;
use crate::choices::{Choice, choices};
use crate::pending::{count_before_sync, emptied, note_pending};
use crate::replay::replay;
use crate::schedule::{Fate, fate_of, names_look, number_after};
use crate::store::Store;
use crate::{BuildFault, Entry};
use dired_text::{Bytes, Failed, Memory, Name, Path, Text};
use std::alloc::Global;
use tree_core::{CallName, Change, Faults, Kind, LookEnd, Meta, ReadEnd, Tree};

/// A tree in memory. It keeps the tree that it began with and a record of the changing calls since, and its calls fail
/// as it was told.
#[derive(Drop)]
pub struct MemTree {
    alloc: Global,
    began: Store,
    first_number: u64,
    attempts: Vec<Attempt>,
    // the tree that reads
    store: Store,
    next_number: u64,
    // how many of the attempts came before the last failed call
    before_fault: usize,
    failing_changes: Vec<(u64, bool)>,
    changes_made: u64,
    failing_looks: Vec<u64>,
    looks_made: u64,
    faults: Faults,
    short: u64,
    ghost begins: { IsSound (Began (tree_of began) first_number) } by { IsSound-prop (Began (tree_of began) first_number) },
    ghost were: { AllWere (Began (tree_of began) first_number) attempts.items } by { AllWere-prop (Began (tree_of began) first_number) attempts.items },
    ghost sound: { IsSound (history_of began first_number attempts.items) } by { IsSound-prop (history_of began first_number attempts.items) },
    ghost reads: { tree_of store ≡ current_tree (history_of began first_number attempts.items) } by { FileTree-prop (tree_of store) (current_tree (history_of began first_number attempts.items)) },
    ghost timed: { times_of store ≡ times_now (history_of began first_number attempts.items) (times_of began) } by { Times-prop (times_of store) (times_now (history_of began first_number attempts.items) (times_of began)) },
    ghost numbered: { next_number ≡ number_told (history_of began first_number attempts.items) },
    ghost fits: { next_number < 2 ^ 64 },
    ghost counted: { before_fault ≤ length attempts.items },
}

// The bytes of a file, at most `limit` of them.
fn read_from(store: &Store, alloc: Global, path: &Path, limit: u64) -> Result<Bytes, ReadEnd>
    requires { IsFile (tree_of store.now) path.now }
    ensures read { IsRead (get (tree_of store.now) path.now) limit result }
    ensures limit { IfOk result (λ bytes. length bytes ≤ limit) }
    ensures held { read_failed result ≡ false }
{
    match store.bytes(path) {
        Some(bytes) => {
            if limit < bytes.len() as u64 {
                return Err(ReadEnd::TooLarge);
            }
            Ok(Bytes::copy_of(alloc, bytes)?)
        }
        None => unreachable!(),
    }
}

impl MemTree {
    ghost use Rattle.mem_tree.specs.MemHistory.{history_told, tree_told, fields_told, next_fate, next_look_fails, noted, refused, told, untouched, history_first, ImagesFor, IsUntouched, GrewByPair, PerformsTold, ChangeTold, FailedAtTold, HasCauseTold, ImagesTold, MayLeave};

    /// The tree of the entries, whose root has the mode 0o755. Nothing is pending, and no call is to fail.
    ///
    /// # Errors
    /// `BadEntry` with the place, from 0, of the first entry whose path is the root or stands before, whose parent is
    /// neither the root nor a directory that stands before, whose mode is over 0o7777, whose target isn't 1 to 4,095
    /// bytes without NUL, or whose number is over 9,223,372,036,854,775,807 or stands before with other bytes or mode.
    pub fn new(alloc: Global, entries: &[Entry]) -> Result<Self, BuildFault>
        ensures good { IfOk result (λ m. first_bad [] entries.now ≡ None) }
        ensures bad { IfErr result (λ fault. Refuses entries.now fault) }
        ensures told { IfOk result (λ m. told m ≡
            untouched (Began (built root_tree entries.now) (next_of entries.now))
            (times_built entries.now)) }
    {
        let (store, first_number) = store_of(alloc, entries)?;
        Ok(MemTree::began(alloc, store, first_number)?)
    }

    // A tree that begins with a store, with nothing pending.
    fn began(alloc: Global, store: Store, first_number: u64) -> Result<Self, Memory>
        requires { IsSound (Began (tree_of store) first_number) }
        ensures { IfOk result (λ m. told m ≡
            untouched (Began (tree_of store) first_number) (times_of store)) }
    {
        let began = store.copy()?;
        Ok(MemTree {
            alloc,
            began,
            first_number,
            attempts: Vec::new(alloc),
            store,
            next_number: first_number,
            before_fault: 0,
            failing_changes: Vec::new(alloc),
            changes_made: 0,
            failing_looks: Vec::new(alloc),
            looks_made: 0,
            faults: Faults::new(),
            short: 0,
        })
    }

    /// Takes a list of the changing calls that fail, counted from the next one as 0, and whether each is done all the
    /// same. Of two entries for one call the first counts. It replaces the list given before.
    ///
    /// # Errors
    /// Where memory is refused nothing has changed.
    pub fn fail_changes(&mut self, calls: &[(u64, bool)]) -> Result<(), Memory>
        ensures ok { OnOk result (told self.new ≡
            record (told self.old) { failing_changes = calls.now; changes_made = 0 }) }
        ensures err { OnErr result (told self.new ≡ told self.old) }
    {
        self.failing_changes = Vec::from_slice(self.alloc, calls)?;
        self.changes_made = 0;
        Ok(())
    }

    /// Takes a list of the looks that fail, counted from the next one as 0. It replaces the list given before.
    ///
    /// # Errors
    /// Where memory is refused nothing has changed.
    pub fn fail_looks(&mut self, calls: &[u64]) -> Result<(), Memory>
        ensures ok { OnOk result (told self.new ≡
            record (told self.old) { failing_looks = calls.now; looks_made = 0 }) }
        ensures err { OnErr result (told self.new ≡ told self.old) }
    {
        self.failing_looks = Vec::from_slice(self.alloc, calls)?;
        self.looks_made = 0;
        Ok(())
    }

    /// How many calls have failed because memory was refused. The count stays at its last value.
    pub fn short(&self) -> u64
        ensures { result ≡ (told self.now).short }
    {
        self.short
    }

    /// Its failed calls.
    pub fn faults(&self) -> Faults
        ensures { result ≡ (told self.now).faults }
    {
        self.faults
    }

    /// Whether the two trees that read are equal, the numbers of their files too. It takes no memory.
    pub fn same(&self, other: &MemTree) -> bool
        ensures { IsTrue result ↔ (tree_told self.now ≡ tree_told other.now) }
    {
        self.store.same(&other.store)
    }

    /// Whether a changing call can be made: its condition holds in the tree that reads. It takes no memory.
    pub fn can(&self, change: &Change) -> bool
        ensures { IsTrue result ↔ CanDo change.now (tree_told self.now) }
    {
        self.store.can(change)
    }

    // Fails before anything is done.
    fn give_up(&mut self, call: CallName) -> Failed
        ensures { told self.new ≡ noted call true (told self.old) }
    {
        self.before_fault = self.attempts.len();
        self.faults.note(call);
        Failed
    }

    // Fails for want of memory.
    fn run_short(&mut self, call: CallName) -> Failed
        ensures { told self.new ≡
            record (noted call true (told self.old)) { short = raised (told self.old).short } }
    {
        self.short = self.short.saturating_add(1);
        self.give_up(call)
    }

    // Whether the next look fails. It counts as made.
    fn look_fails(&mut self) -> bool
        ensures fate { result ≡ next_look_fails (told self.old) }
        ensures store { self.new.store ≡ self.old.store }
        ensures counted { told self.new ≡
            record (told self.old) { looks_made = raised (told self.old).looks_made } }
    {
        let call = self.looks_made;
        self.looks_made = self.looks_made.saturating_add(1);
        names_look(&self.failing_looks, call)
    }

    // What becomes of the next changing call. It counts as made.
    fn next_fate(&mut self) -> Fate
        ensures ok { result.is_ok ≡ not (is_some (next_fate (told self.old))) }
        ensures done { result.is_done ≡ unwrap_or (next_fate (told self.old)) true }
        ensures counted { self.new ≡
            record self.old { changes_made = raised self.old.changes_made } }
    {
        let call = self.changes_made;
        self.changes_made = self.changes_made.saturating_add(1);
        fate_of(&self.failing_changes, call)
    }

    // Makes a changing call, which fails as the schedule says.
    fn change(&mut self, call: CallName, change: Change) -> Result<(), Failed>
        requires { CanDo change (tree_told self.old) }
        ensures history { PerformsTold change self.old self.new result }
        ensures before_failed { FailedAtTold self.old self.new result }
        ensures cause { HasCauseTold call self.old self.new result }
        ensures scheduled { ChangeTold call change self.old self.new result }
    {
        let fate = self.next_fate();
        let before = self.attempts.len();
        let Some(later) = number_after(&change, self.next_number, fate.is_done) else {
            return Err(self.give_up(call));
        };
        let attempt = Attempt {
            change,
            number: self.next_number,
            is_done: fate.is_done,
            is_ok: fate.is_ok,
        };
        match do_call(&mut self.store, &mut self.attempts, attempt) {
            Ok(()) => {
                self.next_number = later;
                if fate.is_ok {
                    return Ok(());
                }
                self.before_fault = before;
                self.faults.note(call);
                Err(Failed)
            }
            Err(_) => Err(self.run_short(call)),
        }
    }

    // A changing call whose arguments there is no memory for. It counts as made.
    fn refuse(&mut self, call: CallName) -> Failed
        ensures { told self.new ≡ refused call (told self.old) }
    {
        self.changes_made = self.changes_made.saturating_add(1);
        self.run_short(call)
    }

    // How many calls came before the last sync that was done; 0 where there was none.
    fn count_before_sync(&self) -> usize
        ensures within { result ≤ length self.now.attempts.items }
        ensures history { history_first result self.now ≡ synced_history (history_told self.now) }
    {
        let mut count = 0;
        for (place, attempt) in self.attempts.iter().enumerate() {
            count = count_before_sync(attempt, place, count);
        }
        count
    }

    // What the first calls of the record, so many, made of the tree that it began with.
    fn store_behind(&self, count: usize) -> Result<Store, Memory>
        requires { count ≤ length self.now.attempts.items }
        ensures { IfOk result (λ s. stand_in s ≡
            stand_of (history_first count self.now) (told self.now).times) }
    {
        let mut store = self.began.copy()?;
        for attempt in &self.attempts[..count] {
            redo(&mut store, attempt)?;
        }
        Ok(store)
    }

    // The calls that are pending, each with the number that a file of it got.
    fn pending(&self) -> Result<Vec<(u64, Change)>, Memory>
        ensures { IfOk result (λ calls. calls.items ≡ pending_calls (history_told self.now)) }
    {
        let mut calls = Vec::new(self.alloc);
        for attempt in &self.attempts {
            note_pending(&mut calls, attempt)?;
        }
        Ok(calls)
    }

    // Adds the two images of a sub-list.
    fn push_pair(
        &self,
        images: &mut Vec<MemTree>,
        base: &Store,
        whole: &[(u64, Change)],
        empty: &[(u64, Change)],
        choice: Choice,
    ) -> Result<(), Memory>
        requires whole { EndsAt self.now.next_number whole.now (tree_of base.now) }
        requires empty { empty.now ≡ map emptied_of whole.now }
        ensures { OnOk result (GrewByPair (picked (takes choice) whole.now) (stand_in base.now)
            self.now.next_number images.old.items images.new.items) }
    {
        let one = MemTree::began(self.alloc, replay(base, whole, choice)?, self.next_number)?;
        let other = MemTree::began(self.alloc, replay(base, empty, choice)?, self.next_number)?;
        images.push(one)?;
        images.push(other)?;
        Ok(())
    }

    // The images of sub-lists.
    fn images_of(
        &self,
        base: &Store,
        whole: &[(u64, Change)],
        empty: &[(u64, Change)],
        choices: &[Choice],
    ) -> Result<Vec<MemTree>, Memory>
        requires whole { EndsAt self.now.next_number whole.now (tree_of base.now) }
        requires empty { empty.now ≡ map emptied_of whole.now }
        ensures images { IfOk result
            (λ images. ImagesFor choices.now whole.now (stand_in base.now) images.items) }
        ensures untouched { IfOk result
            (λ images. All (IsUntouched self.now.next_number) images.items) }
    {
        let mut images = Vec::new(self.alloc);
        for choice in choices {
            self.push_pair(&mut images, base, whole, empty, *choice)?;
        }
        Ok(images)
    }

    /// Trees that a crash may leave now, each with nothing pending, no faults, nothing that is to fail, and the next number of
    /// this tree. Of at most ten pending calls they are the results of all sub-lists, in the order of the numbers whose bit i
    /// says that call i, from 0, is in it. Of more they are those of each prefix, by its length, and then of each list with one
    /// call left out, by its place. A call whose condition doesn't hold in the tree so far is skipped. Each result is given
    /// twice: with the files that were written whole, and then with them empty.
    pub fn images(&self) -> Result<Vec<MemTree>, Memory>
        ensures images { IfOk result (λ images. ImagesTold self.now images.items) }
        ensures untouched { IfOk result
            (λ images. All (IsUntouched (number_told (history_told self.now))) images.items) }
        ensures crash { IfOk result (λ images. All (MayLeave self.now) images.items) }
    {
        let synced = self.count_before_sync();
        let base = self.store_behind(synced)?;
        let whole = self.pending()?;
        let empty = emptied(self.alloc, &whole)?;
        let chosen = choices(self.alloc, whole.len())?;
        self.images_of(&base, &whole, &empty, &chosen)
    }
}

impl Tree for MemTree {
    ghost use Rattle.mem_tree.specs.MemHistory.{told, history_told, before_failed_told, tree_told, stand_told, fields_told, MayFailAs, PerformsTold, ChangeTold, LookTold, FailedAtTold, LookFailedAtTold, ReadFailedAtTold, HasCauseTold, LookHasCauseTold, ReadHasCauseTold};
    ghost use Rattle.mem_tree.specs.FieldLaws.{told_fields};

    ghost Tells = { Unit {0} };

    ghost history = { history_told };

    ghost before_failed = { before_failed_told };

    ghost fields = { fields_told };

    ghost faults = { λ m. (told m).faults };

    ghost changes = { λ m. (told m).changes_made };

    ghost MayFail = { MayFailAs };

    ghost is_sound = { λ m tells. m.sound };

    ghost fields_show = { λ m tells. told_fields (stand_told m).tree (stand_told m).times m.sound.tree m.sound.texts };

    fn kind(&mut self, path: &Path) -> Result<Option<Kind>, Failed>
        ensures kind { IfOk result (λ kind. kind ≡
            option_map kind_of (get (tree_told self.old) path.now)) }
        ensures history { history_told self.new ≡ history_told self.old }
        ensures before_failed { FailedAtTold self.old self.new result }
        ensures fields { fields_told self.new ≡ fields_told self.old }
        ensures unchanged { (told self.new).changes_made ≡ (told self.old).changes_made }
        ensures cause { HasCauseTold CallName.Kind self.old self.new result }
        ensures may_fail { OnErr result (MayFailAs CallName.Kind self.old self.new) }
        ensures scheduled { LookTold CallName.Kind (is_err result) self.old self.new }
    {
        if self.look_fails() {
            return Err(self.give_up(CallName::Kind));
        }
        Ok(self.store.kind(path))
    }

    fn mode(&mut self, path: &Path) -> Result<u16, Failed>
        requires { HasMode (tree_told self.old) path.now }
        ensures mode { IfOk result (λ mode. option_map mode_of (get (tree_told self.old) path.now) ≡
            Some mode) }
        ensures lawful { IfOk result (λ mode. IsMode mode) }
        ensures history { history_told self.new ≡ history_told self.old }
        ensures before_failed { FailedAtTold self.old self.new result }
        ensures fields { fields_told self.new ≡ fields_told self.old }
        ensures unchanged { (told self.new).changes_made ≡ (told self.old).changes_made }
        ensures cause { HasCauseTold CallName.Mode self.old self.new result }
        ensures may_fail { OnErr result (MayFailAs CallName.Mode self.old self.new) }
        ensures scheduled { LookTold CallName.Mode (is_err result) self.old self.new }
    {
        if self.look_fails() {
            return Err(self.give_up(CallName::Mode));
        }
        Ok(self.store.mode(path).unwrap_or(0))
    }

    fn is_empty(&mut self, path: &Path) -> Result<bool, Failed>
        requires { IsDir (tree_told self.old) path.now }
        ensures empty { IfOk result (λ empty. IsTrue empty ↔
            IsEmptyAt (tree_told self.old) path.now) }
        ensures history { history_told self.new ≡ history_told self.old }
        ensures before_failed { FailedAtTold self.old self.new result }
        ensures fields { fields_told self.new ≡ fields_told self.old }
        ensures unchanged { (told self.new).changes_made ≡ (told self.old).changes_made }
        ensures cause { HasCauseTold CallName.IsEmpty self.old self.new result }
        ensures may_fail { OnErr result (MayFailAs CallName.IsEmpty self.old self.new) }
        ensures scheduled { LookTold CallName.IsEmpty (is_err result) self.old self.new }
    {
        if self.look_fails() {
            return Err(self.give_up(CallName::IsEmpty));
        }
        Ok(self.store.is_childless(path))
    }

    fn meta(&mut self, _alloc: Global, path: &Path) -> Result<Meta, LookEnd>
        requires { Stands (tree_told self.old) path.now }
        ensures meta { IfOk result (λ meta. meta ≡ fields_told self.old path.now) }
        ensures lawful { IfOk result (λ meta. IsMeta meta) }
        ensures history { history_told self.new ≡ history_told self.old }
        ensures before_failed { LookFailedAtTold self.old self.new result }
        ensures fields { fields_told self.new ≡ fields_told self.old }
        ensures unchanged { (told self.new).changes_made ≡ (told self.old).changes_made }
        ensures cause { LookHasCauseTold CallName.Meta self.old self.new result }
        ensures may_fail { IfErr result (λ end. end ≡ LookEnd.Failed →
            MayFailAs CallName.Meta self.old self.new) }
        ensures scheduled { LookTold CallName.Meta (look_failed result) self.old self.new }
    {
        if self.look_fails() {
            return Err(self.give_up(CallName::Meta).into());
        }
        Ok(self.store.meta(path)?)
    }

    fn names(&mut self, _alloc: Global, path: &Path) -> Result<Vec<Name>, LookEnd>
        requires { IsDir (tree_told self.old) path.now }
        ensures names { IfOk result (λ names. names.items ≡
            names_in (tree_told self.old) path.now) }
        ensures lawful { IfOk result (λ names. RiseStrictly names.items) }
        ensures history { history_told self.new ≡ history_told self.old }
        ensures before_failed { LookFailedAtTold self.old self.new result }
        ensures fields { fields_told self.new ≡ fields_told self.old }
        ensures unchanged { (told self.new).changes_made ≡ (told self.old).changes_made }
        ensures cause { LookHasCauseTold CallName.Names self.old self.new result }
        ensures may_fail { IfErr result (λ end. end ≡ LookEnd.Failed →
            MayFailAs CallName.Names self.old self.new) }
        ensures scheduled { LookTold CallName.Names (look_failed result) self.old self.new }
    {
        if self.look_fails() {
            return Err(self.give_up(CallName::Names).into());
        }
        Ok(self.store.names(path)?)
    }

    fn read(&mut self, alloc: Global, path: &Path, limit: u64) -> Result<Bytes, ReadEnd>
        requires { IsFile (tree_told self.old) path.now }
        ensures read { IsRead (get (tree_told self.old) path.now) limit result }
        ensures within { IfOk result (λ bytes. length bytes ≤ limit) }
        ensures history { history_told self.new ≡ history_told self.old }
        ensures before_failed { ReadFailedAtTold self.old self.new result }
        ensures fields { fields_told self.new ≡ fields_told self.old }
        ensures unchanged { (told self.new).changes_made ≡ (told self.old).changes_made }
        ensures cause { ReadHasCauseTold CallName.Read self.old self.new result }
        ensures may_fail { IfErr result (λ end. end ≡ ReadEnd.Failed →
            MayFailAs CallName.Read self.old self.new) }
        ensures scheduled { LookTold CallName.Read (read_failed result) self.old self.new }
    {
        if self.look_fails() {
            return Err(self.give_up(CallName::Read).into());
        }
        read_from(&self.store, alloc, path, limit)
    }

    fn rename(&mut self, from: &Path, to: &Path) -> Result<(), Failed>
        requires { CanDo (Change.Rename from.now to.now) (tree_told self.old) }
        ensures history { PerformsTold (Change.Rename from.now to.now) self.old self.new result }
        ensures before_failed { FailedAtTold self.old self.new result }
        ensures counted { (told self.new).changes_made ≡ raised (told self.old).changes_made }
        ensures cause { HasCauseTold CallName.Rename self.old self.new result }
        ensures may_fail { OnErr result (MayFailAs CallName.Rename self.old self.new) }
        ensures scheduled { ChangeTold CallName.Rename
            (Change.Rename from.now to.now) self.old self.new result }
        // what stood takes its fields along
        ensures carried { OnOk result ((p : Names) → Stands (tree_told self.old) p →
            fields_told self.new (moved from.now to.now p) ≡ fields_told self.old p) }
    {
        match (from.copy(), to.copy()) {
            (Ok(from), Ok(to)) => self.change(CallName::Rename, Change::Rename(from, to)),
            _ => Err(self.refuse(CallName::Rename)),
        }
    }

    fn make_dir(&mut self, path: &Path, mode: u16) -> Result<(), Failed>
        requires { CanDo (Change.MakeDir path.now mode) (tree_told self.old) }
        ensures history { PerformsTold (Change.MakeDir path.now mode) self.old self.new result }
        ensures before_failed { FailedAtTold self.old self.new result }
        ensures counted { (told self.new).changes_made ≡ raised (told self.old).changes_made }
        ensures cause { HasCauseTold CallName.MakeDir self.old self.new result }
        ensures may_fail { OnErr result (MayFailAs CallName.MakeDir self.old self.new) }
        ensures scheduled { ChangeTold CallName.MakeDir
            (Change.MakeDir path.now mode) self.old self.new result }
    {
        match path.copy() {
            Ok(path) => self.change(CallName::MakeDir, Change::MakeDir(path, mode)),
            Err(_) => Err(self.refuse(CallName::MakeDir)),
        }
    }

    fn make_link(&mut self, path: &Path, target: &str) -> Result<(), Failed>
        requires { CanDo (Change.MakeLink path.now target.now) (tree_told self.old) }
        ensures history { PerformsTold
            (Change.MakeLink path.now target.now) self.old self.new result }
        ensures before_failed { FailedAtTold self.old self.new result }
        ensures counted { (told self.new).changes_made ≡ raised (told self.old).changes_made }
        ensures cause { HasCauseTold CallName.MakeLink self.old self.new result }
        ensures may_fail { OnErr result (MayFailAs CallName.MakeLink self.old self.new) }
        ensures scheduled { ChangeTold CallName.MakeLink
            (Change.MakeLink path.now target.now) self.old self.new result }
    {
        match (path.copy(), Text::copy_of(self.alloc, target)) {
            (Ok(path), Ok(target)) => self.change(
                CallName::MakeLink,
                Change::MakeLink(path, target),
            ),
            _ => Err(self.refuse(CallName::MakeLink)),
        }
    }

    fn make_hard(&mut self, path: &Path, old: &Path) -> Result<(), Failed>
        requires { CanDo (Change.MakeHard path.now old.now) (tree_told self.old) }
        ensures history { PerformsTold (Change.MakeHard path.now old.now) self.old self.new result }
        ensures before_failed { FailedAtTold self.old self.new result }
        ensures counted { (told self.new).changes_made ≡ raised (told self.old).changes_made }
        ensures cause { HasCauseTold CallName.MakeHard self.old self.new result }
        ensures may_fail { OnErr result (MayFailAs CallName.MakeHard self.old self.new) }
        ensures scheduled { ChangeTold CallName.MakeHard
            (Change.MakeHard path.now old.now) self.old self.new result }
    {
        match (path.copy(), old.copy()) {
            (Ok(path), Ok(old)) => self.change(CallName::MakeHard, Change::MakeHard(path, old)),
            _ => Err(self.refuse(CallName::MakeHard)),
        }
    }

    fn write_file(&mut self, path: &Path, bytes: &[u8], mode: u16) -> Result<(), Failed>
        requires { CanDo (Change.WriteFile path.now bytes.now mode) (tree_told self.old) }
        ensures history { PerformsTold
            (Change.WriteFile path.now bytes.now mode) self.old self.new result }
        ensures before_failed { FailedAtTold self.old self.new result }
        ensures counted { (told self.new).changes_made ≡ raised (told self.old).changes_made }
        ensures cause { HasCauseTold CallName.WriteFile self.old self.new result }
        ensures may_fail { OnErr result (MayFailAs CallName.WriteFile self.old self.new) }
        ensures scheduled { ChangeTold CallName.WriteFile
            (Change.WriteFile path.now bytes.now mode) self.old self.new result }
    {
        match (path.copy(), Bytes::copy_of(self.alloc, bytes)) {
            (Ok(path), Ok(bytes)) => self.change(
                CallName::WriteFile,
                Change::WriteFile(path, bytes, mode),
            ),
            _ => Err(self.refuse(CallName::WriteFile)),
        }
    }

    fn set_mode(&mut self, path: &Path, mode: u16) -> Result<(), Failed>
        requires { CanDo (Change.SetMode path.now mode) (tree_told self.old) }
        ensures history { PerformsTold (Change.SetMode path.now mode) self.old self.new result }
        ensures before_failed { FailedAtTold self.old self.new result }
        ensures counted { (told self.new).changes_made ≡ raised (told self.old).changes_made }
        ensures cause { HasCauseTold CallName.SetMode self.old self.new result }
        ensures may_fail { OnErr result (MayFailAs CallName.SetMode self.old self.new) }
        ensures scheduled { ChangeTold CallName.SetMode
            (Change.SetMode path.now mode) self.old self.new result }
    {
        match path.copy() {
            Ok(path) => self.change(CallName::SetMode, Change::SetMode(path, mode)),
            Err(_) => Err(self.refuse(CallName::SetMode)),
        }
    }

    fn remove(&mut self, path: &Path) -> Result<(), Failed>
        requires { CanDo (Change.Remove path.now) (tree_told self.old) }
        ensures history { PerformsTold (Change.Remove path.now) self.old self.new result }
        ensures before_failed { FailedAtTold self.old self.new result }
        ensures counted { (told self.new).changes_made ≡ raised (told self.old).changes_made }
        ensures cause { HasCauseTold CallName.Remove self.old self.new result }
        ensures may_fail { OnErr result (MayFailAs CallName.Remove self.old self.new) }
        ensures scheduled { ChangeTold CallName.Remove
            (Change.Remove path.now) self.old self.new result }
    {
        match path.copy() {
            Ok(path) => self.change(CallName::Remove, Change::Remove(path)),
            Err(_) => Err(self.refuse(CallName::Remove)),
        }
    }

    fn remove_dir(&mut self, path: &Path) -> Result<(), Failed>
        requires { CanDo (Change.RemoveDir path.now) (tree_told self.old) }
        ensures history { PerformsTold (Change.RemoveDir path.now) self.old self.new result }
        ensures before_failed { FailedAtTold self.old self.new result }
        ensures counted { (told self.new).changes_made ≡ raised (told self.old).changes_made }
        ensures cause { HasCauseTold CallName.RemoveDir self.old self.new result }
        ensures may_fail { OnErr result (MayFailAs CallName.RemoveDir self.old self.new) }
        ensures scheduled { ChangeTold CallName.RemoveDir
            (Change.RemoveDir path.now) self.old self.new result }
    {
        match path.copy() {
            Ok(path) => self.change(CallName::RemoveDir, Change::RemoveDir(path)),
            Err(_) => Err(self.refuse(CallName::RemoveDir)),
        }
    }

    fn sync(&mut self) -> Result<(), Failed>
        ensures history { PerformsTold Change.Sync self.old self.new result }
        ensures before_failed { FailedAtTold self.old self.new result }
        ensures counted { (told self.new).changes_made ≡ raised (told self.old).changes_made }
        ensures cause { HasCauseTold CallName.Sync self.old self.new result }
        ensures may_fail { OnErr result (MayFailAs CallName.Sync self.old self.new) }
        ensures scheduled { ChangeTold CallName.Sync Change.Sync self.old self.new result }
    {
        self.change(CallName::Sync, Change::Sync)
    }
}
