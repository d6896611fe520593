ghost use Rattle.std.specs.Prelude.{◌≡◌, IfOk};
ghost use Rattle.papy_io.specs.Activity.{Idle};

use crate::calls::{CommandAnswer, call_failing, words_of};
use command_files::{Ending, Place, Rule};
use latent_natives::Device;
use papy_io::{MemoryDesk, MemorySink};
use run_commands::sample;
use scene_reader::SceneRule;
use std::alloc::Global;
use std::process::Abort;
use std::test::Fail;

const SCRIPT: &[u8] = b"ScriptName A\nEvent OnInit()\nDebug.Trace(\"a\")\nEndEvent\n";

/// A scene with one instance of the script.
const SCENE: &[u8] = b"{\"version\":1,\"instances\":[{\"name\":\"a\",\"script\":\"A\"}],\
    \"calls\":[{\"turn\":0,\"instance\":\"a\",\"function\":\"OnInit\"}],\"order\":\"round\",\"turns\":9}";

/// A scene with one instance of a script of the prelude.
const QUEST: &[u8] = b"{\"version\":1,\"instances\":[{\"name\":\"q\",\"script\":\"Quest\"}],\
    \"calls\":[],\"order\":\"round\",\"turns\":9}";

const LISTING: &[u8] = b"pex 1 0\nsource \"\"\nuser \"\"\nmachine \"\"\nnodebug\n";

/// The compiled file of the listing.
const EMPTY: [u8; 29] = [
    0xFA, 0x57, 0xC0, 0xDE, 3, 1, 0, 1, 0, 0, 0, 0, 0, 0, 0, 0, 0, 0, 0, 0, 0, 0, 0, 0, 0, 0, 0, 0,
    0,
];

/// A desk that holds these files, with these failing calls.
fn desk_with(alloc: Global, failing: &[u32]) -> Result<MemoryDesk, Fail>
    ensures { IfOk result (λ desk. desk.busy ≡ Idle) }
{
    let mut desk = MemoryDesk::new(alloc, Vec::from_slice(alloc, failing)?);
    desk.put(b"A.psc", SCRIPT)?;
    desk.put(b"B.psc", b"ScriptName B\n")?;
    desk.put(b"S.json", SCENE)?;
    desk.put(b"Q.json", QUEST)?;
    desk.put(b"L.txt", LISTING)?;
    desk.put(b"E.pex", &EMPTY)?;
    Ok(desk)
}

/// What a command is to answer: its status, and what it writes to `out` and to `notes`.
type Wanted<'a> = (u8, &'a [u8], &'a [u8]);

fn is_answer(answer: &CommandAnswer, wanted: Wanted<'_>) -> bool {
    answer.status == wanted.0 && answer.out.bytes() == wanted.1 && answer.notes.bytes() == wanted.2
}

/// The number of a call that none of these commands makes.
const NEVER: u32 = 1000;

/// Where the call of each number fails in turn, of the desk or else of `out`, the command of these words has the answer of that place.
fn expect(
    rt: &impl Abort,
    alloc: Global,
    words: &[&str],
    of_desk: bool,
    answers: &[Wanted<'_>],
) -> Result<(), Fail> {
    let words = words_of(alloc, words)?;
    for (number, wanted) in answers.iter().enumerate() {
        let number = u32::try_from(number).unwrap_or(NEVER);
        let (here, there) = if of_desk {
            (number, NEVER)
        } else {
            (NEVER, number)
        };
        let mut desk = desk_with(alloc, &[here])?;
        let found = call_failing(alloc, &mut desk, words.as_slice(), &[there], &[])?;
        assert!(rt; is_answer(&found, *wanted));
    }
    Ok(())
}

const NO_SCRIPT: Wanted<'static> = (3, b"", b"papyrus: cannot read A.psc\n");

const NO_SCENE: Wanted<'static> = (3, b"", b"papyrus: cannot read S.json\n");

const NO_FILE: Wanted<'static> = (3, b"", b"papyrus: cannot read E.pex\n");

const NO_LISTING: Wanted<'static> = (3, b"", b"papyrus: cannot read L.txt\n");

const NO_SECOND: Wanted<'static> = (3, b"", b"papyrus: cannot read B.psc\n");

const CUT: &[u8] = b"papyrus: cannot write\n";

const UNWRITTEN: Wanted<'static> = (4, b"", CUT);

#[test]
fn a_scene_and_a_script_are_read_by_four_calls_each(rt: HostRuntime) -> Result<(), Fail> {
    let report: Wanted<'_> = (0, b"#0 a\nturns 2\na : A @\nstack 0 done\n", b"");
    let answers = [
        NO_SCENE, NO_SCENE, NO_SCENE, NO_SCENE, NO_SCRIPT, NO_SCRIPT, NO_SCRIPT, NO_SCRIPT, report,
    ];
    expect(&rt, rt.alloc(), &["run", "S.json", "A.psc"], true, &answers)
}

#[test]
fn a_compiled_file_is_read_by_four_calls(rt: HostRuntime) -> Result<(), Fail> {
    let read: Wanted<'_> = (0, b"ok 29\n", b"");
    let answers = [NO_FILE, NO_FILE, NO_FILE, NO_FILE, read];
    expect(&rt, rt.alloc(), &["check", "E.pex"], true, &answers)?;
    let shown: Wanted<'_> = (0, LISTING, b"");
    let answers = [NO_FILE, NO_FILE, NO_FILE, NO_FILE, shown];
    expect(&rt, rt.alloc(), &["show", "E.pex"], true, &answers)
}

#[test]
fn asm_and_upgrade_fail_at_reading_before_they_fail_at_writing(
    rt: HostRuntime,
) -> Result<(), Fail> {
    let done: Wanted<'_> = (0, b"", b"");
    let answers = [
        NO_LISTING, NO_LISTING, NO_LISTING, NO_LISTING, UNWRITTEN, UNWRITTEN, UNWRITTEN, done,
    ];
    expect(&rt, rt.alloc(), &["asm", "L.txt", "B.pex"], true, &answers)?;
    let answers = [
        NO_SCENE, NO_SCENE, NO_SCENE, NO_SCENE, UNWRITTEN, UNWRITTEN, UNWRITTEN, done,
    ];
    let words = ["upgrade", "S.json", "T.json"];
    expect(&rt, rt.alloc(), &words, true, &answers)
}

#[test]
fn compile_reads_each_script_before_it_writes_a_file(rt: HostRuntime) -> Result<(), Fail> {
    let done: Wanted<'_> = (0, b"", b"");
    let answers = [
        NO_SCRIPT, NO_SCRIPT, NO_SCRIPT, NO_SCRIPT, NO_SECOND, NO_SECOND, NO_SECOND, NO_SECOND,
        UNWRITTEN, UNWRITTEN, UNWRITTEN, UNWRITTEN, UNWRITTEN, UNWRITTEN, done,
    ];
    let words = ["compile", "A.psc", "B.psc"];
    expect(&rt, rt.alloc(), &words, true, &answers)
}

/// The desk after the two scripts were compiled with this failing call.
fn compiled(alloc: Global, number: u32) -> Result<MemoryDesk, Fail> {
    let failing = [number];
    let mut desk = desk_with(alloc, &failing)?;
    let words = words_of(alloc, &["compile", "A.psc", "B.psc"])?;
    call_failing(alloc, &mut desk, words.as_slice(), &[], &[])?;
    Ok(desk)
}

#[test]
fn a_failed_call_of_the_desk_leaves_the_files_before_it(rt: HostRuntime) -> Result<(), Fail> {
    let alloc = rt.alloc();
    let whole = compiled(alloc, 15)?;
    let first = whole.bytes_of(b"A.pex");
    for number in 0..15u32 {
        let desk = compiled(alloc, number)?;
        assert_eq!(rt; desk.bytes_of(b"A.pex") == first, number > 9);
        assert_eq!(rt; desk.bytes_of(b"B.pex").is_some(), number > 11);
    }
    Ok(())
}

#[test]
fn a_failed_line_of_the_report_leaves_the_lines_before_it(rt: HostRuntime) -> Result<(), Fail> {
    let answers: [Wanted<'_>; 5] = [
        (4, b"", CUT),
        (4, b"#0 a\n", CUT),
        (4, b"#0 a\nturns 2\n", CUT),
        (4, b"#0 a\nturns 2\nit : A @\n", CUT),
        (0, b"#0 a\nturns 2\nit : A @\nstack 0 done\n", b""),
    ];
    expect(&rt, rt.alloc(), &["once", "A.psc"], false, &answers)?;
    let answers: [Wanted<'_>; 3] = [
        (4, b"", CUT),
        (4, b"turns 0\n", CUT),
        (0, b"turns 0\nq : Quest @\n", b""),
    ];
    let words = ["exec", "Q.json", "E.pex"];
    expect(&rt, rt.alloc(), &words, false, &answers)
}

#[test]
fn a_line_that_cannot_be_written_is_a_failed_write(rt: HostRuntime) -> Result<(), Fail> {
    let alloc = rt.alloc();
    let words = words_of(alloc, &["check", "A.psc"])?;
    let mut desk = desk_with(alloc, &[])?;
    let found = call_failing(alloc, &mut desk, words.as_slice(), &[], &[0])?;
    assert!(rt; is_answer(&found, (4, b"", b"")));
    Ok(())
}

#[test]
fn a_sample_without_devices_is_refused(rt: HostRuntime) -> Result<(), Fail> {
    let alloc = rt.alloc();
    let mut devices: Vec<Box<dyn Device>> = Vec::new(alloc);
    let mut out = MemorySink::new(alloc, Vec::new(alloc));
    let ending = sample(alloc, 1, &mut out, &mut devices);
    let is_refused = matches!(
        &ending,
        Ending::Refused {
            word: 0,
            place: Place::Whole,
            rule: Rule::Scene(SceneRule::NoDevice),
        }
    );
    assert!(rt; is_refused);
    assert!(rt; out.bytes().is_empty());
    Ok(())
}
