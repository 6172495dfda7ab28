//! The program `pocket`: its words, the desk of files, and how it ends.
#![tactic(auto)]

ghost use Rattle.std.specs.Prelude.{◌≡◌, ℕ, ◌≤◌, ◌↔◌, ◌⊎◌, drop, length, map, take, Err, IsSome, None};
ghost use Rattle.std.specs.Process.{exit_status};
ghost use Rattle.std.specs.String.{string_bytes};
ghost use Rattle.desk_ports.specs.FileDesk.{file_counts, GathersNothing};
ghost use Rattle.desk_ports.specs.Meanings.{nothing_told};
ghost use Rattle.pocket.specs.Program.{IsHandedOver, answered, asked_by, asked_of, asked_of_verb, seen};
ghost use Rattle.pocket_cmd.specs.Command.{HasCommand, command_of};
ghost use Rattle.pocket_cmd.specs.Status.{exit_number};

mod advice;
mod keys;
mod verb_help;

use advice::{advise, caution, tell_error};
use desk_ports::{Desk, Failed, FileDesk};
use pocket_cmd::{Refusal, Status, Verb, exit_code, pocket};
use std::fs::File;
use std::process::ExitCode;
use std::{env, fs, io};
use verb_help::print_help;

/// No verb has as many words, so a command line that is cut here is refused just as the whole one is.
const MOST_WORDS: usize = 1000;

/// The exit status if the system refuses the arguments.
const NO_WORDS: u8 = 7;

const HELP: &str = "\
pocket compress in=RECORDING out=STORE bits=F apid=APID robust=R [plan=SCHEDULE] [mask=DIGITS]
    makes the store of Space Packets of a recording of packets of F bits
pocket play in=STORE out=PLAYED report=REPORT apid=APID script=SCRIPT
    drops and repeats the packets that a store has on an APID
pocket restore in=STORE out=PACKETS report=REPORT bits=F apid=APID
    gives back the packets of F bits that a store has on an APID, and lists all others
pocket show in=STORE out=LISTING bits=F apid=APID
    lists what is found for each packet that a store has on an APID
pocket trial seed=SEED packets=N bits=F robust=R out=SUMMARY
    runs compress, play and restore over a recording that it generates, in memory
pocket multi in=STORE out=PACKETS report=REPORT streams=STREAMS
    gives back the packets that a store has on many APIDs, each as a Space Packet
pocket late in=STORE out=PACKETS report=REPORT bits=F apid=APID window=W
    restores a store whose packets may come late, by up to W others
pocket table in=RECORDING out=TABLE report=REPORT fields=FIELDS bits=F
    writes the fields of packets of F bits as a table, and lists the values out of their limits
pocket forecast out=FORECAST packets=N robust=R plan=SCHEDULE script=SCRIPT
    tells which packets will be written under a schedule and a loss, whatever the recording is
pocket --help
pocket --version
The keys come in any order, and those in brackets may be left out:
    in, plan, script  a file to read, or - for standard input
    streams, fields   a file to read that names them, or - for standard input
    out, report       a file to write, or - for standard output
    bits              the bits of a packet, 1 to 49152, of trial 1 to 4096
    apid              the APID, 0 to 2046
    robust            how many packets lost in a row each packet withstands at least, 0 to 7
    mask              the first mask, two hexadecimal digits for each byte of a packet
    seed              where the numbers of a trial begin, 0 to 4294967295
    packets           how many packets there are, of a trial 1 to 10000, of a forecast 1 to 1000000
    window            how many packets with greater numbers may come before a late one, 0 to 64
Exit status:
    0  done
    1  reading or writing failed
    2  an argument is wrong (word 0 is the verb)
    3  the schedule, the script, the streams or the fields are wrong
    4  the recording or the store is wrong
    5  out of memory
    7  the arguments cannot be read";

const VERSION: &str = "pocket 1.1.0";

/// What the program is asked about itself.
#[derive(Clone, Copy, Debug, PartialEq, Eq)]
enum Asked {
    Help,
    Version,
    /// The help of the verb before it.
    VerbHelp,
}

impl Asked {
    /// What the only word asks, or the word after a verb.
    fn by(words: &[String]) -> Option<Asked>
        ensures { result ≡ asked_by (map string_bytes words.now) }
    {
        match words {
            [word] => Asked::of(word.as_str()),
            [verb, word] => Asked::of_verb(verb.as_str(), word.as_str()),
            _ => None,
        }
    }

    /// What a word asks.
    fn of(word: &str) -> Option<Asked>
        ensures { result ≡ asked_of word.now }
    {
        match word {
            "--help" | "-h" | "help" => Some(Asked::Help),
            "--version" | "-V" => Some(Asked::Version),
            _ => None,
        }
    }

    /// What a word asks after a first word.
    fn of_verb(verb: &str, word: &str) -> Option<Asked>
        ensures { result ≡ asked_of_verb verb.now word.now }
    {
        match word {
            "--help" | "-h" if Verb::of(verb).is_some() => Some(Asked::VerbHelp),
            _ => None,
        }
    }

    /// Prints what answers it, after these words.
    fn print(self, rt: &HostRuntime, words: &[String]) -> io::Result<()> {
        match (self, words) {
            (Asked::Version, _) => println!(rt; "{VERSION}"),
            (Asked::VerbHelp, [verb, ..]) => print_help(rt, verb.as_str()),
            _ => println!(rt; "{HELP}"),
        }
    }
}

fn main(rt: HostRuntime) -> ExitCode {
    let _stand_ins = [
        stand_in(&rt, "/dev/fd/0"),
        stand_in(&rt, "/dev/fd/1"),
        stand_in(&rt, "/dev/fd/2"),
    ];
    match command_line(&rt) {
        Ok(line) => answer(&rt, words(&line)),
        Err(error) if error.kind() == io::ErrorKind::OutOfMemory => {
            ended(&rt, &[], None, Status::Refused(Refusal::NoMemory))
        }
        Err(_) => {
            let _ = eprintln!(rt; "pocket: words cannot be read");
            ExitCode::from(NO_WORDS)
        }
    }
}

/// Something in the place of a standard stream that is closed, so that no file that is opened later is taken for it: a
/// folder, which can't be read or written as a file is.
fn stand_in(rt: &HostRuntime, stream: &str) -> Option<File> {
    match fs::metadata(rt, stream) {
        Ok(_) => None,
        Err(_) => fs::open(rt, "/").ok(),
    }
}

/// All words of the command line, the program's name first.
#[inline(never)]
fn command_line(rt: &HostRuntime) -> io::Result<Vec<String>> {
    let mut line = Vec::new(rt.alloc());
    for word in env::args(rt)? {
        line.push(word)?;
    }
    Ok(line)
}

/// The words after the program's name.
fn words(line: &[String]) -> &[String]
    ensures { result.now ≡ drop 1 line.now }
{
    match line {
        [] => line,
        [_, words @ ..] => words,
    }
}

/// Prints what is asked about the program itself, or runs the command.
fn answer(rt: &HostRuntime, words: &[String]) -> ExitCode
    // Words that give no command, and ask nothing of the program, end it with 2.
    ensures no_command { (word : ℕ) → asked_by (map string_bytes words.now) ≡ None
        → command_of (seen words.now) ≡ Err word → exit_status result ≡ 2 }
    // If they ask nothing of it, it ends with 2 only for such words.
    ensures wrong { asked_by (map string_bytes words.now) ≡ None → exit_status result ≡ 2
        → (word : ℕ) × (command_of (seen words.now) ≡ Err word) }
    // It ends with 0 only if the words are right or ask something of the program.
    ensures done { exit_status result ≡ 0
        → IsSome (asked_by (map string_bytes words.now))
        ⊎ HasCommand (take 1000 words.now) (λ _. Unit {0}) }
{
    match Asked::by(words) {
        Some(asked) => printed(rt, asked.print(rt, words)),
        None => {
            let mut desk = FileDesk::for_command(rt, names_report(words));
            let status = run(rt, first_words(words), &mut desk);
            ended(rt, words, Some(&desk), status)
        }
    }
}

/// Whether a word names a report. A command has one then, or is refused for that word.
fn names_report(words: &[String]) -> bool {
    words
        .iter()
        .any(|word| word.as_str().starts_with("report="))
}

/// Runs the command at a desk of files at which nothing was opened. What is gathered there is handed over at the end,
/// whatever the answer, so that a refused run leaves what it wrote.
fn run<'a>(rt: &HostRuntime, words: &[String], desk: &mut FileDesk<'a>) -> Status
    requires few { length words.now ≤ 1000 }
    requires fresh { ⟦<FileDesk<'a> as Desk>⟧.meaning desk.old ≡ nothing_told }
    ensures no_command { (word : ℕ) → (result ≡ Status.Refused (Refusal.BadWords word))
        ↔ (command_of (map string_bytes words.now) ≡ Err word) }
    ensures done { result ≡ Status.Done → HasCommand words.now (λ _. Unit {0}) }
    ensures handed { IsHandedOver desk.new }
    // A fault of reading or writing is the answer only if one was counted.
    ensures read_fault { result ≡ Status.Refused Refusal.ReadFault
        → 1 ≤ (file_counts desk.new).reads }
    ensures write_fault { result ≡ Status.Refused Refusal.WriteFault
        → 1 ≤ (file_counts desk.new).writes }
    // If it is done, all that was written was handed over.
    ensures whole { result ≡ Status.Done → GathersNothing desk.new }
{
    let status = pocket(rt.alloc(), words, desk);
    let handed = desk.hand_over();
    answered(status, handed)
}

/// What the program answers: what `pocket` did, but a failed writing if the command was done and handing over failed.
fn answered(status: Status, handed: Result<(), Failed>) -> Status
    ensures { result ≡ answered status handed }
{
    match (status, handed) {
        (Status::Done, Err(_)) => Status::Refused(Refusal::WriteFault),
        (status, _) => status,
    }
}

/// The words that are looked at.
fn first_words(words: &[String]) -> &[String]
    ensures first { result.now ≡ take 1000 words.now }
    ensures few { length result.now ≤ 1000 }
{
    &words[..MOST_WORDS.min(words.len())]
}

/// The exit status after something was printed on standard output.
fn printed(rt: &HostRuntime, print: io::Result<()>) -> ExitCode {
    match print {
        Ok(()) => ExitCode::SUCCESS,
        Err(error) => {
            let code = ended(rt, &[], None, Status::Refused(Refusal::WriteFault));
            tell_error(rt, "-", &error);
            code
        }
    }
}

/// Prints a refusal on standard error, and on a terminal what these words and the desk of the run have to do with it, or what a
/// sender risks; and gives the exit status.
fn ended<'a>(
    rt: &HostRuntime,
    words: &[String],
    desk: Option<&FileDesk<'a>>,
    status: Status,
) -> ExitCode
    ensures { exit_status result ≡ exit_number status }
{
    match &status {
        Status::Done => caution(rt, words),
        Status::Refused(refusal) => {
            let _ = eprintln!(rt; "pocket: {refusal}");
            if let Some(desk) = desk {
                advise(rt, words, desk, refusal);
            }
        }
    }
    ExitCode::from(exit_code(&status))
}
