//! Files by name, one of them read or written at a time.
ghost use Rattle.std.specs.Prelude.{◌≡◌, ◌≢◌, ◌<◌, ℕ, List, length, Option};
ghost use Rattle.papy_io.specs.Activity.{Activity, Idle, IsReading, IsWriting};
ghost use Rattle.papy_io.specs.Count.{CountsFaults, CountsFailures};
ghost use Rattle.papy_io.specs.Files.{Files};
ghost use Rattle.papy_io.specs.Desk.{StartsReading, StartsWriting, StartsFile, ReadsOn, WritesOn, CountsTaken, CountsReadFinish, CountsWriteFinish, MissesStart, MissesRead};

use crate::fault::{Failed, IoFault};

/// Files by name, one of them read or written at a time.
///
/// - `holds` is the bytes of each name that is held, where the desk tells its bytes.
/// - `busy` is what the desk is busy with: nothing, a name that is read with the bytes that are
///   left where the desk tells its bytes, or a name that is written.
/// - `taken` is the number of bytes that `read` gave.
/// - `read_faults` and `write_faults` are the numbers of calls that failed.
/// - `missed` is the name whose reading failed last.
///
/// Each count has 64 bits and stays at its last value.
pub trait Desk {
    ghost holds: { Self → Option Files };

    ghost busy: { Self → Activity };

    ghost taken: { Self → ℕ };

    ghost read_faults: { Self → ℕ };

    ghost write_faults: { Self → ℕ };

    ghost missed: { Self → Option (List ℕ) };

    /// Starts to read a name at its first byte. A name that is not held is a failure. After an
    /// error the desk is idle.
    fn start_read(&mut self, name: &[u8]) -> Result<(), IoFault>
        requires { busy self.old ≡ Idle }
        ensures holds { holds self.new ≡ holds self.old }
        ensures busy { StartsReading (holds self.old) name.now result (busy self.new) }
        ensures taken { taken self.new ≡ taken self.old }
        ensures read_faults { CountsFaults result (read_faults self.old) (read_faults self.new) }
        ensures write_faults { write_faults self.new ≡ write_faults self.old }
        ensures missed { MissesStart name.now result (missed self.old) (missed self.new) };

    /// Puts the next bytes into the front of the buffer and gives their number, 0 at the end. After
    /// `Failed` the desk reads on from the same place.
    fn read(&mut self, buffer: &mut [u8]) -> Result<usize, Failed>
        requires reading { IsReading (busy self.old) }
        requires room { 0 < length buffer.old }
        ensures holds { holds self.new ≡ holds self.old }
        ensures busy { ReadsOn (busy self.old) result buffer.new (busy self.new) }
        ensures taken { CountsTaken result (taken self.old) (taken self.new) }
        ensures read_faults { CountsFailures result (read_faults self.old) (read_faults self.new) }
        ensures write_faults { write_faults self.new ≡ write_faults self.old }
        ensures missed { MissesRead (busy self.old) result (missed self.old) (missed self.new) };

    /// Starts to write a name, which holds no bytes then. After an error the desk is idle, and
    /// after `Failed` the name holds what it held, or no bytes, or is not held.
    fn start_write(&mut self, name: &[u8]) -> Result<(), IoFault>
        requires { busy self.old ≡ Idle }
        ensures holds { StartsFile name.now result (holds self.old) (holds self.new) }
        ensures busy { StartsWriting name.now result (busy self.new) }
        ensures taken { taken self.new ≡ taken self.old }
        ensures read_faults { read_faults self.new ≡ read_faults self.old }
        ensures write_faults { CountsFaults result (write_faults self.old) (write_faults self.new) }
        ensures missed { missed self.new ≡ missed self.old };

    /// Appends all bytes to the name that is written. After `Failed` some of the first bytes may
    /// have been appended. The desk goes on writing after an error.
    fn write(&mut self, bytes: &[u8]) -> Result<(), IoFault>
        requires { IsWriting (busy self.old) }
        ensures holds { WritesOn (busy self.old) result bytes.now (holds self.old) (holds self.new) }
        ensures busy { busy self.new ≡ busy self.old }
        ensures taken { taken self.new ≡ taken self.old }
        ensures read_faults { read_faults self.new ≡ read_faults self.old }
        ensures write_faults { CountsFaults result (write_faults self.old) (write_faults self.new) }
        ensures missed { missed self.new ≡ missed self.old };

    /// Ends the reading or the writing. The desk is idle after an error too.
    fn finish(&mut self) -> Result<(), Failed>
        requires { busy self.old ≢ Idle }
        ensures holds { holds self.new ≡ holds self.old }
        ensures busy { busy self.new ≡ Idle }
        ensures taken { taken self.new ≡ taken self.old }
        ensures read_faults { CountsReadFinish (busy self.old) result (read_faults self.old) (read_faults self.new) }
        ensures write_faults { CountsWriteFinish (busy self.old) result (write_faults self.old) (write_faults self.new) }
        ensures missed { MissesRead (busy self.old) result (missed self.old) (missed self.new) };
}
