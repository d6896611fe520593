//! Which command the words of a command line are.
ghost use Rattle.std.specs.Prelude.{◌≡◌, ◌≤◌, IfSome, map};
ghost use Rattle.std.specs.List.{list_all};
ghost use Rattle.std.specs.String.{string_bytes};
ghost use Rattle.papyrus_cmd.specs.Command.{are_file_words, are_named, are_pex_words, are_script_words, begins_above_zero, command_of, counted_number, file_command, hold_command, is_file_word, is_named, lone_command, play_command, resume_command, sample_command, stand_behind_file, turn_count};

/// The most bytes that a word may have.
const WORD_LIMIT: usize = 4096;

/// The most scripts or compiled files that a command takes.
const FILE_COUNT_LIMIT: usize = 256;

/// The most workers of a sample.
const WORKER_LIMIT: u32 = 200;

/// The most turns that a command goes on for.
const TURN_LIMIT: u32 = 1_000_000;

/// What a script's name ends with, in any case.
const SCRIPT_ENDING: &[u8] = b".psc";

/// What the name of a compiled file ends with, in any case.
const PEX_ENDING: &[u8] = b".pex";

/// The bytes of an ending.
const ENDING_LENGTH: usize = 4;

/// A command of the program.
#[derive(Clone, Copy, PartialEq, Eq)]
pub enum Command {
    /// Tells the commands.
    Help,
    /// Tells the version.
    Version,
    /// Works on files, and runs nothing.
    Files(FileCommand),
    /// Runs scripts.
    Play(PlayCommand),
}

/// A command that works on files, and runs nothing.
#[derive(Clone, Copy, PartialEq, Eq)]
pub enum FileCommand {
    /// Writes the compiled files of scripts. Every word after the first names a script.
    Compile,
    /// Tells whether a compiled file breaks a rule. The word after the first names it.
    Check,
    /// Lists a compiled file. The word after the first names it.
    Show,
    /// Writes the compiled file of a listing. The word after the first names the listing, and the next
    /// one the file.
    Asm,
    /// Writes a scene in the current version. The word after the first names the scene, and the next one
    /// the file.
    Upgrade,
    /// Checks a journal, and counts for how many turns stacks waited. The word after the first names it.
    Waits,
    /// Writes sources of compiled files. Every word after the first names a compiled file.
    Lift,
}

/// A command that runs scripts.
#[derive(Clone, Copy, PartialEq, Eq)]
pub enum PlayCommand {
    /// Runs scripts with one instance of the first and one call of its `OnInit`. Every word after
    /// the first names a script.
    Once,
    /// Runs scripts on a scene. The word after the first names the scene, and each after that a script.
    Run,
    /// Runs compiled files on a scene. The word after the first names the scene, and each after that a
    /// compiled file.
    Exec,
    /// Runs compiled files on a scene, and writes the journal of the run. The word after the first names the scene,
    /// the next one the journal, and each after that a compiled file.
    Journal,
    /// Runs compiled files on a scene for at most so many turns, and holds the run in a file. The word after the first
    /// is that number, the next one names the scene, the next one the held file, and each after that a compiled file.
    Hold(u32),
    /// Goes on with a held run for at most so many turns. The word after the first is that number, and the next one
    /// names the held file.
    Resume(u32),
    /// Runs a sample with so many workers, 1 to 200. The word after the first is their number.
    Sample(u8),
}

/// The command that the words are, if they are one.
pub fn command_of(words: &[String]) -> Option<Command>
    ensures { result ≡ command_of (map string_bytes words.now) }
{
    let (first, rest) = words.split_first()?;
    if rest.is_empty() {
        return lone_command(first);
    }
    if let Some(command) = play_command(first, rest) {
        return Some(Command::Play(command));
    }
    match file_command(first, rest) {
        Some(command) => Some(Command::Files(command)),
        None => None,
    }
}

// The command that a word is which stands alone.
fn lone_command(word: &String) -> Option<Command>
    ensures { result ≡ lone_command (string_bytes word.now) }
{
    let name = word.as_str();
    if name == "--help" {
        Some(Command::Help)
    } else if name == "--version" {
        Some(Command::Version)
    } else {
        None
    }
}

// The command that runs scripts which a word is with those behind it.
fn play_command(word: &String, rest: &[String]) -> Option<PlayCommand>
    ensures { result ≡ play_command (string_bytes word.now) (map string_bytes rest.now) }
{
    let name = word.as_str();
    if name == "once" && are_script_words(rest) {
        Some(PlayCommand::Once)
    } else if name == "run" && are_scene_and_scripts(rest) {
        Some(PlayCommand::Run)
    } else if name == "exec" && are_scene_and_pex_files(rest) {
        Some(PlayCommand::Exec)
    } else if name == "journal" && are_two_files_and_pex_files(rest) {
        Some(PlayCommand::Journal)
    } else if name == "hold" {
        hold_command(rest)
    } else if name == "resume" {
        resume_command(rest)
    } else if name == "sample" {
        sample_command(rest)
    } else {
        None
    }
}

// The command that works on files which a word is with those behind it.
fn file_command(word: &String, rest: &[String]) -> Option<FileCommand>
    ensures { result ≡ file_command (string_bytes word.now) (map string_bytes rest.now) }
{
    let name = word.as_str();
    if name == "compile" && are_script_words(rest) {
        Some(FileCommand::Compile)
    } else if name == "check" && are_file_words(1, rest) {
        Some(FileCommand::Check)
    } else if name == "show" && are_file_words(1, rest) {
        Some(FileCommand::Show)
    } else if name == "asm" && are_file_words(2, rest) {
        Some(FileCommand::Asm)
    } else if name == "upgrade" && are_file_words(2, rest) {
        Some(FileCommand::Upgrade)
    } else if name == "waits" && are_file_words(1, rest) {
        Some(FileCommand::Waits)
    } else if name == "lift" && are_named(PEX_ENDING, rest) {
        Some(FileCommand::Lift)
    } else {
        None
    }
}

fn sample_command(words: &[String]) -> Option<PlayCommand>
    ensures { result ≡ sample_command (map string_bytes words.now) }
{
    let (first, rest) = words.split_first()?;
    if !rest.is_empty() {
        return None;
    }
    Some(PlayCommand::Sample(worker_count(first)?))
}

// A number of turns, two files, and compiled files behind them.
fn hold_command(words: &[String]) -> Option<PlayCommand>
    ensures { result ≡ hold_command (map string_bytes words.now) }
{
    let (first, rest) = words.split_first()?;
    if !are_two_files_and_pex_files(rest) {
        return None;
    }
    Some(PlayCommand::Hold(turn_count(first)?))
}

// A number of turns, and a file.
fn resume_command(words: &[String]) -> Option<PlayCommand>
    ensures { result ≡ resume_command (map string_bytes words.now) }
{
    let (first, rest) = words.split_first()?;
    if !are_file_words(1, rest) {
        return None;
    }
    Some(PlayCommand::Resume(turn_count(first)?))
}

// The number from 1 to 200 that a word writes.
fn worker_count(word: &String) -> Option<u8>
    ensures { result ≡ counted_number 200 (string_bytes word.now) }
{
    let count = counted_number(WORKER_LIMIT, word)?;
    Some(count as u8)
}

// The number from 0 to 1,000,000 that a word writes.
fn turn_count(word: &String) -> Option<u32>
    ensures { result ≡ turn_count (string_bytes word.now) }
{
    if word.as_str() == "0" {
        return Some(0);
    }
    counted_number(TURN_LIMIT, word)
}

// The number from 1 to this one that a word writes in decimal digits, without zeros in front.
fn counted_number(most: u32, word: &String) -> Option<u32>
    ensures number { result ≡ counted_number most (string_bytes word.now) }
    ensures within { IfSome result (λ count. count ≤ most) }
{
    let text = word.as_str();
    if !begins_above_zero(text.as_bytes()) {
        return None;
    }
    match text.parse::<u32>() {
        Ok(count) if count <= most => Some(count),
        _ => None,
    }
}

// No sign and no zero stands in front of decimal digits.
fn begins_above_zero(text: &[u8]) -> bool
    ensures { result ≡ begins_above_zero text.now }
{
    match text {
        [first, ..] => *first > b'0',
        [] => false,
    }
}

fn are_script_words(words: &[String]) -> bool
    ensures { result ≡ are_script_words (map string_bytes words.now) }
{
    are_named(SCRIPT_ENDING, words)
}

fn are_named(ending: &[u8], words: &[String]) -> bool
    ensures { result ≡ are_named ending.now (map string_bytes words.now) }
{
    if words.is_empty() || words.len() > FILE_COUNT_LIMIT {
        return false;
    }
    each_is_named(ending, words)
}

fn each_is_named(ending: &[u8], words: &[String]) -> bool
    ensures { result ≡ list_all (λ word. is_named ending.now (string_bytes word)) words.now }
{
    words.iter().all(|word| is_named(ending, word.as_bytes()))
}

fn is_named(ending: &[u8], word: &[u8]) -> bool
    ensures { result ≡ is_named ending.now word.now }
{
    word.len() > ENDING_LENGTH
        && word.len() <= WORD_LIMIT
        && word[word.len() - ENDING_LENGTH..].eq_ignore_ascii_case(ending)
}

// A file, and scripts behind it.
fn are_scene_and_scripts(words: &[String]) -> bool
    ensures { result ≡ stand_behind_file are_script_words (map string_bytes words.now) }
{
    match words.split_first() {
        Some((scene, scripts)) => is_file_word(scene.as_bytes()) && are_script_words(scripts),
        None => false,
    }
}

// A file, and compiled files behind it.
fn are_scene_and_pex_files(words: &[String]) -> bool
    ensures { result ≡ stand_behind_file are_pex_words (map string_bytes words.now) }
{
    match words.split_first() {
        Some((scene, files)) => is_file_word(scene.as_bytes()) && are_pex_words(files),
        None => false,
    }
}

// Two files, and compiled files behind them.
fn are_two_files_and_pex_files(words: &[String]) -> bool
    ensures { result ≡ stand_behind_file (stand_behind_file are_pex_words) (map string_bytes words.now) }
{
    match words.split_first() {
        Some((scene, rest)) => is_file_word(scene.as_bytes()) && are_scene_and_pex_files(rest),
        None => false,
    }
}

fn are_pex_words(words: &[String]) -> bool
    ensures { result ≡ are_pex_words (map string_bytes words.now) }
{
    if words.is_empty() || words.len() > FILE_COUNT_LIMIT {
        return false;
    }
    each_is_file_word(words)
}

// So many words that each name a file.
fn are_file_words(count: usize, words: &[String]) -> bool
    ensures { result ≡ are_file_words count (map string_bytes words.now) }
{
    words.len() == count && each_is_file_word(words)
}

fn each_is_file_word(words: &[String]) -> bool
    ensures { result ≡ list_all (λ word. is_file_word (string_bytes word)) words.now }
{
    words.iter().all(|word| is_file_word(word.as_bytes()))
}

fn is_file_word(word: &[u8]) -> bool
    ensures { result ≡ is_file_word word.now }
{
    !word.is_empty() && word.len() <= WORD_LIMIT
}
