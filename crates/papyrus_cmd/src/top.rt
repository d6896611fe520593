//! The top call, which the program makes with its command line.
ghost use Rattle.std.specs.Prelude.{◌≡◌, ◌⊎◌, ◌≤◌, None, map, vec_len};
ghost use Rattle.std.specs.String.{string_bytes};
ghost use Rattle.latent_natives.specs.Devices.{SameKinds};
ghost use Rattle.papy_io.specs.Activity.{Idle};
ghost use Rattle.papy_io.specs.Count.{HasRisen};
ghost use Rattle.papyrus_cmd.specs.Command.{command_of};
ghost use Rattle.papyrus_cmd.specs.TopCall.{Answered, CutShort, FilesCut, IsAnswer, IsStatus, NotRead, RunsNone, WasCut, WritesNone};

use crate::dispatch::run;
use crate::notes::tell;
use latent_natives::Device;
use papy_io::{Desk, Sink};
use std::alloc::Global;

/// Runs the command that the words are, reads its files from the desk, writes what it writes to
/// `out` and, where it ends otherwise than well, one line to `notes`. Scripts that it runs act on the
/// devices. Gives the status.
///
/// `words` are the command line without the program's name. The statuses are 0 (done),
/// 1 (out of memory), 2 (the words are no command), 3 (a file was not read), 4 (the output, a file
/// or the line was not written), 5 (a script was refused), 6 (a compiled file was refused), 7 (a scene was
/// refused), 8 (a listing was refused), 9 (compiled files can't run together), 10 (accepted scripts have no
/// compiled files; no scripts are known that have none), 11 (a held file was refused), 12 (a journal was
/// refused) and 13 (no sources were found for compiled files).
pub fn papyrus<D: Desk, S: Sink, E: Sink>(
    alloc: Global,
    words: &[String],
    desk: &mut D,
    out: &mut S,
    notes: &mut E,
    devices: &mut Vec<Box<dyn Device>>,
) -> u8
    requires idle { D.busy desk.old ≡ Idle }
    requires few_devices { vec_len devices.old ≤ 65535 }
    ensures status { IsStatus result }
    ensures busy { D.busy desk.new ≡ Idle }
    ensures kept { WritesNone (map string_bytes words.now) → D.holds desk.new ≡ D.holds desk.old }
    ensures devices { SameKinds (map (λ d. device_state d) devices.old.items) (map (λ d. device_state d) devices.new.items) }
    ensures untouched { RunsNone (map string_bytes words.now) → map (λ d. device_state d) devices.new.items ≡ map (λ d. device_state d) devices.old.items }

    // Any other answer than want of memory or a device's failure is that of the command.
    ensures answered { IsAnswer result → Answered (map string_bytes words.now) (D.holds desk.old) (D.holds desk.new) result
        (S.written out.old) (S.written out.new) (E.written notes.old) (E.written notes.new) }
    ensures cut_short { WasCut result → CutShort (map string_bytes words.now) (D.holds desk.old)
        (S.written out.old) (S.written out.new) (E.written notes.old) (E.written notes.new) }
    // After it a file may hold the first part of what was to be written.
    ensures cut_file { WasCut result → FilesCut (map string_bytes words.now) (D.holds desk.old) (D.holds desk.new) }
    ensures quiet { ¬ WasCut result → (S.faults out.new ≡ S.faults out.old) × (E.faults notes.new ≡ E.faults notes.old) × (D.write_faults desk.new ≡ D.write_faults desk.old) }

    // The causes of 2, 3 and 4.
    ensures usage { result ≡ 2 → command_of (map string_bytes words.now) ≡ None }
    ensures no_command { command_of (map string_bytes words.now) ≡ None → (result ≡ 2) ⊎ WasCut result }
    ensures not_read { result ≡ 3 → NotRead (map string_bytes words.now) (D.missed desk.new)
        (D.read_faults desk.old) (D.read_faults desk.new)
        (S.written out.old) (S.written out.new) (E.written notes.old) (E.written notes.new) }
    ensures all_read { IsAnswer result → D.read_faults desk.new ≡ D.read_faults desk.old }
    ensures unread_kept { result ≡ 3 → D.holds desk.new ≡ D.holds desk.old }
    ensures not_written { result ≡ 4 →
        HasRisen (S.faults out.old) (S.faults out.new) ⊎ HasRisen (E.faults notes.old) (E.faults notes.new)
        ⊎ HasRisen (D.write_faults desk.old) (D.write_faults desk.new) }
{
    let ending = run(alloc, words, desk, out, devices);
    tell(alloc, words, ending, notes)
}
