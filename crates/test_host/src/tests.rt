ghost use Rattle.std.specs.Prelude.{◌≡◌, None};

use ip_base::{Exit, Reaped};
use ip_ground::{FileName, Ground, GroundFault};
use ip_host::{Children, Folder, Stdin};
use ip_script::{Source, SourceFault};
use ip_spawn::{Job, Look, Spawner};
use std::fs::Permissions;
use std::io::{ErrorKind, Read};
use std::os::unix::fs::{PermissionsExt, symlink};
use std::test::Fail;
use std::{fs, io};

const JOB: Job = Job {
    attempt: 3,
    horizon: 59,
    end: u64::MAX,
    chunk: 4096,
    live: 2,
    old_horizon: 0,
    prefix_len: 17,
    rows: 1,
};

// How a child of this job ended.
const ENDED: Reaped = Reaped {
    attempt: 3,
    exit: Exit::Code(4),
};

#[test]
fn a_folder_keeps_plain_files(rt: HostRuntime) -> Result<(), Fail> {
    let _ = fs::remove_dir_all(&rt, "kept");
    let mut folder = Folder::new(&rt, rt.alloc());
    assert_eq!(rt; folder.attach("kept"), Err(GroundFault));
    fs::create_dir(&rt, "kept")?;
    folder.attach("kept")?;
    let chunk = FileName::Chunk(7);
    let mut out = [b'-'; 4];
    folder.write(chunk, 0, b"abcdef")?;
    folder.write(chunk, 4, b"xyz")?;
    folder.sync(chunk)?;
    assert_eq!(rt; folder.length(chunk), Ok(Some(7)));
    assert_eq!(rt; folder.read(chunk, 5, &mut out), Ok(2));
    assert_eq!(rt; out, *b"yz--");
    folder.remove(chunk)?;
    assert_eq!(rt; folder.length(chunk), Ok(None));
    symlink(&rt, "chunk.8", "kept/chunk.7")?;
    assert_eq!(rt; folder.length(chunk), Err(GroundFault));
    assert_eq!(rt; folder.write(chunk, 0, b"x"), Err(GroundFault));
    assert!(rt; !fs::exists(&rt, "kept/chunk.8")?);
    folder.note_damage();
    let counts = folder.counts();
    assert_eq!(rt;
        (counts.file_faults, counts.remove_faults, counts.damages),
        (3, 0, 1)
    );
    fs::remove_dir_all(&rt, "kept")?;
    Ok(())
}

#[test]
fn what_a_child_left_counts_where_it_is_plain(rt: HostRuntime) -> Result<(), Fail> {
    let _ = fs::remove_dir_all(&rt, "left");
    fs::create_dir(&rt, "left")?;
    let mut folder = Folder::new(&rt, rt.alloc());
    folder.attach("left")?;
    folder.lend(3)?;
    fs::write(&rt, "left/chunk.0", "own")?;
    fs::write(&rt, "left/mapping.3", "made")?;
    symlink(&rt, "chunk.0", "left/prefix.3")?;
    fs::create_dir(&rt, "left/done.3")?;
    assert_eq!(rt; folder.length(FileName::Prefix(3)), Ok(None));
    let through = Reaped {
        attempt: 3,
        exit: Exit::Code(0),
    };
    folder.settle(3, &through)?;
    assert_eq!(rt; folder.length(FileName::Prefix(3)), Ok(None));
    assert_eq!(rt; folder.length(FileName::Mapping(3)), Ok(Some(4)));
    assert_eq!(rt; folder.length(FileName::Chunk(0)), Ok(Some(3)));
    assert!(rt; !fs::exists(&rt, "left/prefix.3")?);
    folder.remove(FileName::Done(3))?;
    assert!(rt; !fs::exists(&rt, "left/done.3")?);
    fs::remove_dir_all(&rt, "left")?;
    Ok(())
}

// A reader that a signal interrupts before its first byte, and that fails behind it.
#[derive(Drop)]
struct Broken {
    calls: u8,
}

impl Read for Broken {
    fn read(&mut self, buf: &mut [u8]) -> io::Result<usize> {
        self.calls = self.calls.saturating_add(1);
        match (self.calls, buf) {
            (1, _) => Err(io::Error::from(ErrorKind::Interrupted)),
            (2, [first, ..]) => {
                *first = b'a';
                Ok(1)
            }
            _ => Err(io::Error::from(ErrorKind::Other)),
        }
    }
}

#[test]
fn input_is_read_until_it_fails(rt: HostRuntime) {
    let mut source = Stdin::new(Broken { calls: 0 });
    let mut out = [0; 4];
    assert_eq!(rt; source.next(&mut out), Ok(1));
    assert_eq!(rt; out[0], b'a');
    assert_eq!(rt; source.next(&mut out), Err(SourceFault));
    assert_eq!(rt; source.counts().read_faults, 1);
}

// Starts a child in a folder whose name begins with a dash, looks at it once, and waits for it; or ends it.
fn waited<S: Spawner>(spawner: &mut S) -> Option<Reaped>
    requires { S.held spawner.old ≡ None }
    ensures { S.held spawner.new ≡ None }
{
    if spawner.start("-its words", &JOB).is_err() {
        return None;
    }
    if let Ok(Look::Ended(_)) = spawner.look() {
        return None;
    }
    match spawner.wait() {
        Ok(reaped) => Some(reaped),
        Err(_) => {
            let _ = spawner.kill();
            None
        }
    }
}

// What it leaves in the place of its done file is none.
const WORKER: &str = "#!/bin/sh
printf '%s\\n' \"$@\" > \"$2/words\"
ln -s words \"$2/done.$3\"
exit 4
";

#[test]
fn a_child_is_told_its_job_and_waited_for(rt: HostRuntime) -> Result<(), Fail> {
    let _ = fs::remove_dir_all(&rt, "./-its words");
    fs::create_dir(&rt, "./-its words")?;
    fs::write(&rt, "./-its words/program", WORKER)?;
    let runs = Permissions::from_mode(0o755);
    fs::set_permissions(&rt, "./-its words/program", runs)?;
    let program = String::from_str(rt.alloc(), "./-its words/program")?;
    let mut children = Children::new(&rt, rt.alloc(), program);
    assert_eq!(rt; waited(&mut children), Some(ENDED));
    let words = fs::read_to_string(&rt, "./-its words/words")?;
    assert_eq!(rt;
        words.as_str(),
        "worker\n./-its words\n3\n59\n18446744073709551615\n4096\n2\n0\n17\n1\n"
    );
    let counts = children.counts();
    assert_eq!(rt; (counts.running, counts.waits, counts.reaps), (1, 1, 1));
    fs::remove_dir_all(&rt, "./-its words")?;
    Ok(())
}
