//! What `--help` and `--version` write.
ghost use Rattle.std.specs.Prelude.{◌≡◌};
ghost use Rattle.papyrus_cmd.specs.Help.{help_text, version_text};

const HELP: &[u8] = b"papyrus: compiles Papyrus scripts and runs them under instance locks

  papyrus once SCRIPT..             runs the first script's OnInit and prints a report
  papyrus run SCENE SCRIPT..        runs scripts on a scene and prints a report
  papyrus compile SCRIPT..          writes the compiled files of scripts
  papyrus exec SCENE PEX..          runs compiled files on a scene and prints a report
  papyrus journal SCENE FILE PEX..  is exec that also writes what stacks did about locks
  papyrus waits FILE                checks a journal and prints how long stacks waited
  papyrus hold N SCENE HELD PEX..   is exec for at most N turns, and holds the run in a file
  papyrus resume N HELD             goes on with a held run and prints a report
  papyrus check PEX                 tells whether a compiled file breaks a rule
  papyrus show PEX                  prints the listing of a compiled file
  papyrus asm TEXT PEX              writes the compiled file of a listing
  papyrus lift PEX..                writes sources that compile to the files' code
  papyrus sample N                  runs N workers on one hub and prints what they did
  papyrus upgrade SCENE NEW         writes a scene in the current version
  papyrus --help                    prints this text
  papyrus --version                 prints the version

A SCRIPT is a file whose name ends with .psc, a PEX a compiled file, a TEXT a
listing, a SCENE a JSON file, a FILE a journal, a HELD a held run, and N a number,
from 1 to 200 of workers and from 0 to 1,000,000 of turns. The statuses and the
lines on standard error are described in docs/commands.md.
";

const VERSION: &[u8] = b"papyrus 0.1.0\n";

/// The commands, each with its words and a line on what it does.
pub fn help() -> &'static [u8]
    ensures { result.now ≡ help_text }
{
    HELP
}

/// The name and the version of the program.
pub fn version() -> &'static [u8]
    ensures { result.now ≡ version_text }
{
    VERSION
}
