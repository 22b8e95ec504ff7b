//! Stores that subcommands make, put in the place of others in a simulated folder whose machine stops at each call in turn.
ghost use Rattle.std.specs.Prelude.{◌≡◌, true};
ghost use Rattle.wcommand.specs.Inputs.{is_act};

use std::alloc::{AllocError, Global};
use std::fs::Permissions;
use std::os::unix::fs::PermissionsExt;
use std::test::*;
use wact::{Acted, act};
use wcommand::{Choice, Paths};
use wfiles::Simulated;
use wfolder::{Access, Disk, NotReplaced, Target, replace};

const PATHS: Paths<'static> = Paths {
    table: "d/table",
    store: "d/store",
};

const LIST: Choice<'static> = Choice::List { paths: PATHS };

const TAKE: Choice<'static> = Choice::Take {
    paths: PATHS,
    origin: "east",
    number: "1",
    csv: "d/csv",
};

const RETIRE: Choice<'static> = Choice::Retire {
    paths: PATHS,
    origin: "east",
    number: "1",
};

const TABLE: &[u8] = b"table sales\nday integer\n";

const CSV: &[u8] = b"day\n1\n2\n";

// What a run that was killed has left.
const LEFTOVER: &str = "d/.wstore-0";

// A file of another program, whose name only begins as those of new files do.
const OTHER: &str = "d/.wstore-0.csv";

// More calls than a replacement makes.
const MANY_CALLS: usize = 20;

// What a subcommand gives on the bytes of a store.
fn acted(alloc: Global, choice: &Choice<'_>, store: Option<&[u8]>) -> Result<Acted, AllocError>
    requires { is_act choice.now ≡ true }
{
    act(alloc, choice, TABLE, store, CSV)
}

// The bytes of a new store, of which there are none where there is no new store.
fn bytes_of(store: &Option<Vec<u8>>) -> &[u8] {
    match store {
        Some(bytes) => bytes.as_slice(),
        None => &[],
    }
}

// A store that is replaced: the bytes that it has before, if it is there, and those that it is to have; what stands beside it.
#[derive(Clone, Copy)]
struct Case<'a> {
    old: Option<&'a [u8]>,
    new: &'a [u8],
    is_permitted: bool,
    leftover: Option<&'a [u8]>,
}

impl<'a> Case<'a> {
    fn disk(self, alloc: Global) -> Result<Disk, AllocError> {
        let mut disk = Disk::new(alloc);
        let other = Some(OTHER.as_bytes());
        for (path, held) in [
            (PATHS.store, self.old),
            (LEFTOVER, self.leftover),
            (OTHER, other),
        ] {
            if let Some(bytes) = held {
                disk.create(path)?;
                disk.write(path, bytes);
                disk.sync(path);
            }
        }
        disk.sync_names();
        Ok(disk)
    }

    fn target(self, alloc: Global) -> Result<Option<Target>, AllocError> {
        let access = Access {
            owner: 7,
            group: 8,
            permissions: Permissions::from_mode(0o640),
        };
        Target::new(alloc, "d", "store", self.is_permitted.then_some(access))
    }

    // Whether a path may hold this after a crash, where the replacement ended so.
    fn allows(self, end: Result<(), NotReplaced>, path: &str, held: Option<&[u8]>) -> bool {
        let is_old = held == self.old && end.is_err();
        let is_new = held == Some(self.new) && !matches!(end, Err(NotReplaced::Kept(_)));
        match path {
            "d/store" => is_old || is_new,
            OTHER => held == Some(OTHER.as_bytes()),
            _ => path == LEFTOVER,
        }
    }
}

// How many states of a path a crash may leave, how many of them are not allowed, and at how many stores the list is neither
// that of the old store nor that of the new one.
#[derive(Drop)]
struct Seen {
    states: usize,
    torn: usize,
    unlisted: usize,
}

impl Seen {
    // Lists a store that a crash has left.
    fn list(
        &mut self,
        alloc: Global,
        case: Case<'_>,
        held: Option<&[u8]>,
    ) -> Result<(), AllocError> {
        let told = acted(alloc, &LIST, held)?;
        let old = acted(alloc, &LIST, case.old)?;
        let new = acted(alloc, &LIST, Some(case.new))?;
        let told = told.output.as_slice();
        if told != old.output.as_slice() && told != new.output.as_slice() {
            self.unlisted = self.unlisted.saturating_add(1);
        }
        Ok(())
    }

    // Looks at what a crash may leave under a path.
    fn look_at(
        &mut self,
        alloc: Global,
        case: Case<'_>,
        end: Result<(), NotReplaced>,
        path: &str,
        left: &[Option<&[u8]>],
    ) -> Result<(), AllocError> {
        for held in left {
            self.states = self.states.saturating_add(1);
            if !case.allows(end, path, *held) {
                self.torn = self.torn.saturating_add(1);
            }
            if path == PATHS.store {
                self.list(alloc, case, *held)?;
            }
        }
        Ok(())
    }

    fn look(
        &mut self,
        alloc: Global,
        disk: &Disk,
        case: Case<'_>,
        end: Result<(), NotReplaced>,
    ) -> Result<(), AllocError> {
        for entry in disk.entries() {
            let left = disk.left(entry)?;
            self.look_at(alloc, case, end, entry.path.as_str(), &left)?;
        }
        Ok(())
    }

    // Replaces a store with the machine stopping at each call in turn, until it is done.
    fn replace(&mut self, alloc: Global, case: Case<'_>) -> Result<(), AllocError> {
        let Some(target) = case.target(alloc)? else {
            self.torn = self.torn.saturating_add(1);
            return Ok(());
        };
        for stop in 0..MANY_CALLS {
            let mut folder = Simulated::new(case.disk(alloc)?, target.folder(), stop);
            let end = replace(alloc, &mut folder, &target, case.new);
            self.look(alloc, folder.disk(), case, end)?;
            if end.is_ok() {
                return Ok(());
            }
        }
        self.torn = self.torn.saturating_add(1);
        Ok(())
    }
}

const NOTHING_SEEN: Seen = Seen {
    states: 0,
    torn: 0,
    unlisted: 0,
};

// A store that is made, and one that is replaced, with and without an access to be kept and what a run has left.
#[test]
fn no_crash_tears_a_store(rt: HostRuntime) -> Result<(), Fail> {
    let alloc = rt.alloc();
    let taken = acted(alloc, &TAKE, None)?.store;
    let first = bytes_of(&taken);
    let retired = acted(alloc, &RETIRE, Some(first))?.store;
    let second = bytes_of(&retired);
    let mut seen = NOTHING_SEEN;
    for leftover in [None, Some(TABLE)] {
        let made = Case {
            old: None,
            new: first,
            is_permitted: false,
            leftover,
        };
        seen.replace(alloc, made)?;
        let mut replaced = made;
        replaced.old = Some(first);
        replaced.new = second;
        seen.replace(alloc, replaced)?;
        replaced.is_permitted = true;
        seen.replace(alloc, replaced)?;
    }
    assert_eq!(rt; (seen.states, seen.torn, seen.unlisted), (890, 0, 0));
    Ok(())
}

// Each length at which the new bytes are cut is found, and the old bytes where it was told that the store has the new; of a
// beginning that is cut no list is told.
#[test]
fn a_rename_before_the_sync_tears_it(rt: HostRuntime) -> Result<(), Fail> {
    let alloc = rt.alloc();
    let taken = acted(alloc, &TAKE, None)?.store;
    let new = bytes_of(&taken);
    let case = Case {
        old: None,
        new,
        is_permitted: false,
        leftover: None,
    };
    let mut disk = case.disk(alloc)?;
    disk.create(LEFTOVER)?;
    disk.write(LEFTOVER, new);
    disk.rename(LEFTOVER, PATHS.store);
    let mut seen = NOTHING_SEEN;
    seen.look(alloc, &disk, case, Ok(()))?;
    assert_eq!(rt; (seen.torn, seen.unlisted), (new.len() + 1, new.len()));
    Ok(())
}
