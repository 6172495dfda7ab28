//! What `pocket VERB --help` prints: the lines of the help on a verb and its keys, its formats, and an example.

use crate::HELP;
use crate::keys::Takes;
use pocket_cmd::Verb;
use std::io;

/// Prints the help of a verb, which this word names, on standard output.
pub fn print_help(rt: &HostRuntime, word: &str) -> io::Result<()> {
    let mut is_next = false;
    for line in HELP.lines() {
        let is_own = is_of(line, word);
        if is_next || is_own {
            println!(rt; "{line}")?;
        }
        is_next = is_own;
    }
    if let Some(verb) = Verb::of(word) {
        print_keys(rt, verb)?;
    }
    println!(rt; "{}", formats_of(word))
}

/// Whether a line of the help is the command of the verb that this word names.
fn is_of(line: &str, word: &str) -> bool {
    let rest = line.strip_prefix("pocket ").unwrap_or("");
    rest.split_once(' ').is_some_and(|(verb, _)| verb == word)
}

/// Prints what each key of a verb takes.
fn print_keys(rt: &HostRuntime, verb: Verb) -> io::Result<()> {
    println!(rt; "Keys:")?;
    for row in verb.rows() {
        let key = row.key();
        let takes = Takes(*row);
        println!(rt; "    {key:<7}  {takes}")?;
    }
    Ok(())
}

/// The formats that a verb reads and writes, in a line each, and an example.
fn formats_of(verb: &str) -> &'static str {
    match verb {
        "compress" => COMPRESS,
        "play" => PLAY,
        "restore" => RESTORE,
        "show" => SHOW,
        "trial" => TRIAL,
        "multi" => MULTI,
        "late" => LATE,
        "table" => TABLE,
        "forecast" => FORECAST,
        _ => "",
    }
}

const COMPRESS: &str = "\
Formats:
    RECORDING  packets of F bits, each in whole bytes with spare bits 0, and nothing between
    STORE      Space Packets, one after the other
    SCHEDULE   rows first,last,step,flags with flags of p, f and r, or robust,first,last,step,value
Example:
    pocket compress in=hk.rec out=hk.store bits=64 apid=100 robust=2 plan=plan.csv";

const PLAY: &str = "\
Formats:
    STORE, PLAYED  Space Packets, one after the other
    SCRIPT         rows drop,first,last,step or repeat,first,last,step,extra
    REPORT         packets,delivered,dropped,repeats,first,widest and their numbers
Example:
    pocket play in=hk.store out=played.store report=play.csv apid=100 script=fades.csv";

const RESTORE: &str = "\
Formats:
    STORE    Space Packets, one after the other
    PACKETS  packets of F bits, each in whole bytes with spare bits 0, and nothing between
    REPORT   rows first,last,cause,value, the last one end,arrived,written,repeats
Example:
    pocket restore in=played.store out=packets report=report.csv bits=64 apid=100";

const SHOW: &str = "\
Formats:
    STORE    Space Packets, one after the other
    LISTING  a line for each packet that arrived and for the numbers that were lost, the last one end
Example:
    pocket show in=hk.store out=- bits=64 apid=100";

const TRIAL: &str = "\
Formats:
    SUMMARY  lines of a word and a number
Example:
    pocket trial seed=1 packets=1000 bits=64 robust=2 out=-";

const MULTI: &str = "\
Formats:
    STORE, PACKETS  Space Packets, one after the other
    STREAMS         rows apid,bits
    REPORT          rows apid,first,last,cause,value, for each stream a row end, and shape,packets
Example:
    pocket multi in=two.store out=packets report=report.csv streams=two.csv";

const LATE: &str = "\
Formats:
    STORE    Space Packets, one after the other
    PACKETS  packets of F bits, each in whole bytes with spare bits 0, and nothing between
    REPORT   rows first,last,cause,value, at the end a row end and late,packets
Example:
    pocket late in=played.store out=packets report=report.csv bits=64 apid=100 window=8";

const TABLE: &str = "\
Formats:
    RECORDING  packets of F bits, each in whole bytes with spare bits 0, and nothing between
    FIELDS     rows field,place,width,kind,name with kind u or s, and limit,name,low,high
    TABLE      rows of a packet's place and its values
    REPORT     rows t,name,value,low,high, the last one end,packets,values
Example:
    pocket table in=hk.rec out=- report=limits.csv fields=hk.csv bits=64";

const FORECAST: &str = "\
Formats:
    SCHEDULE  rows first,last,step,flags with flags of p, f and r, or robust,first,last,step,value
    SCRIPT    rows drop,first,last,step or repeat,first,last,step,extra
    FORECAST  rows first,last,state with states sure, open and lost, then gaps and end
Example:
    pocket forecast out=- packets=1000 robust=2 plan=plan.csv script=fades.csv";
