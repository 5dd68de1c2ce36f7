//! Rule files and their answers, found by hand from the form of the file.
//!
//! A row is `FILE => ANSWER`, where `|` in the file stands for the end of a line. The answer is the fault, or the entries
//! of the two lists, `ALLOW ; DENY`: an entry has its plug, vendor, product and class with `_` for what isn't given, and
//! `none` is a list without entries. A row with `#` gives the reason for the next ones.
use admin_rules::{RULES_FILE_SIZE, read_rules};
use peripheral_filter::{Rule, RuleSet};
use psd_base::{Plug, RuleList, RulesFault};
use std::alloc::{AllocError, Global};
use std::process::Abort;
use std::test::Fail;

const ACCEPTED: &str = "
 => none ; none
# lists without entries, comments, blank lines
allow = [] => none ; none
# no rules yet| |   # allow = 1|deny = [] # nothing => none ; none
# each key alone, in inline tables and under headers
deny = [{vendor = 4660}] => none ; _ 4660 _ _
[[deny]]|product = 49297 => none ; _ _ 49297 _
[[deny]]|class = 8| => none ; _ _ _ 8
allow = [{plug = 'keyboard'}] => keyboard _ _ _ ; none
[[allow]]|plug = \"mouse\" => mouse _ _ _ ; none
[[allow]]|\"plug\" = \"\\u0074oken\" => token _ _ _ ; none
# all keys, in any order, at their least and their largest
deny = [{class = 255, product = 0, vendor = 65535, plug = \"token\"}] => none ; token 65535 0 255
deny = [{plug = \"mouse\", vendor = 0, product = 65535, class = 0}] => none ; mouse 0 65535 0
# vendor and product aren't mixed up, and numbers may be hexadecimal
[[allow]]|vendor = 0x046d|product = 0xc077 => _ 1133 49271 _ ; none
[[allow]]|vendor = +0001|product = 1_000 => syntax
[[allow]]|vendor = +1|product = 1_000 => _ 1 1000 _ ; none
# the file's order is kept, and an entry may stand twice
[[deny]]|class = 9|[[allow]]|vendor = 1|[[deny]]|class = 3|[[deny]]|class = 9 => _ 1 _ _ ; _ _ _ 9, _ _ _ 3, _ _ _ 9
allow = [{vendor = 2}, {vendor = 1, product = 7},|{class = 11}] # three => _ 2 _ _, _ 1 7 _, _ _ _ 11 ; none
";

const NO_TOML: &str = "
= => syntax
allow => syntax
deny = [{vendor = 4660} => syntax
[[deny]]|vendor = 1|vendor = 2 => syntax
deny = []|[[deny]]|class = 9 => syntax
allow = []|allow = [] => syntax
[[deny]]|vendor = 123456789012345678901234567890 => syntax
";

const SHAPES: &str = "
# the root
deny = 1 => shape root 0
allow = \"keyboard\" => shape root 0
[allow]|class = 9 => shape root 0
[deny] => shape root 0
allow.class = 9 => shape root 0
permit = [] => shape root 0
Allow = [] => shape root 0
title = \"rules\"|[[deny]]|vendor = 4660 => shape root 0
# the root comes before the entries
deny = [{}]|[other] => shape root 0
allow = [{}]|deny = 7 => shape root 0
# an entry without a key, and entries that are no tables
deny = [{}] => shape deny 1
[[deny]] => shape deny 1
deny = [8] => shape deny 1
deny = [[]] => shape deny 1
deny = [{class = 9}, \"mouse\"] => shape deny 2
# an unknown key beside a known one, alone, and with another case
[[deny]]|class = 9|[[deny]]|class = 9|serial = \"7\" => shape deny 2
[[allow]]|id = 4660 => shape allow 1
[[allow]]|Vendor = 4660 => shape allow 1
[[deny]]|class = 9|[deny.more] => shape deny 1
# numbers out of range, one beyond and one below
[[deny]]|vendor = 65536 => shape deny 1
[[deny]]|product = 65536 => shape deny 1
[[deny]]|class = 256 => shape deny 1
[[deny]]|vendor = -1 => shape deny 1
[[deny]]|product = -1 => shape deny 1
[[deny]]|class = -1 => shape deny 1
# no whole numbers
[[deny]]|vendor = 1.0 => shape deny 1
[[deny]]|product = \"4660\" => shape deny 1
[[deny]]|class = true => shape deny 1
[[deny]]|class = [8] => shape deny 1
# no plug of these names
[[allow]]|plug = \"Keyboard\" => shape allow 1
[[allow]]|plug = \"\" => shape allow 1
[[allow]]|plug = \"keyboards\" => shape allow 1
[[allow]]|plug = 1 => shape allow 1
# a sound key beside a faulty one
[[allow]]|vendor = 1|product = 2|class = 256 => shape allow 1
# the first faulty entry, and those of allow first
[[deny]]|class = 1|[[deny]]|class = 2|[[deny]]|class = 300|[[deny]]|class = 300 => shape deny 3
deny = [{}]|allow = [{class = 1}, {}] => shape allow 2
";

/// The words of the fault lines.
fn fault_text(alloc: Global, fault: RulesFault) -> Result<String, AllocError> {
    match fault {
        RulesFault::TooBig => String::from_str(alloc, "too-big"),
        RulesFault::Syntax => String::from_str(alloc, "syntax"),
        RulesFault::Shape { list, entry } => {
            format!(in alloc; "shape {} {entry}", list_text(list))
        }
        RulesFault::TooMany(list) => format!(in alloc; "too-many {}", list_text(list)),
    }
}

fn list_text(list: RuleList) -> &'static str {
    match list {
        RuleList::Root => "root",
        RuleList::Allow => "allow",
        RuleList::Deny => "deny",
    }
}

fn plug_text(plug: Option<Plug>) -> &'static str {
    match plug {
        None => "_",
        Some(Plug::Keyboard) => "keyboard",
        Some(Plug::Mouse) => "mouse",
        Some(Plug::Token) => "token",
    }
}

fn number_text(alloc: Global, number: Option<u16>) -> Result<String, AllocError> {
    match number {
        None => String::from_str(alloc, "_"),
        Some(number) => format!(in alloc; "{number}"),
    }
}

fn class_text(alloc: Global, class: Option<u8>) -> Result<String, AllocError> {
    match class {
        None => String::from_str(alloc, "_"),
        Some(class) => format!(in alloc; "{class}"),
    }
}

fn rules_text(alloc: Global, rules: &[Rule]) -> Result<String, AllocError> {
    if rules.is_empty() {
        return String::from_str(alloc, "none");
    }
    let mut text = String::new(alloc);
    for rule in rules {
        if !text.is_empty() {
            text.push_str(", ")?;
        }
        text.push_str(plug_text(rule.plug))?;
        text.push_str(" ")?;
        text.push_str(number_text(alloc, rule.vendor)?.as_str())?;
        text.push_str(" ")?;
        text.push_str(number_text(alloc, rule.product)?.as_str())?;
        text.push_str(" ")?;
        text.push_str(class_text(alloc, rule.class)?.as_str())?;
    }
    Ok(text)
}

fn answer_text(alloc: Global, answer: &Result<RuleSet, RulesFault>) -> Result<String, AllocError> {
    match answer {
        Err(fault) => fault_text(alloc, *fault),
        Ok(rules) => {
            let allow = rules_text(alloc, rules.allow.as_slice())?;
            let deny = rules_text(alloc, rules.deny.as_slice())?;
            format!(in alloc; "{allow} ; {deny}")
        }
    }
}

/// The file of a row.
fn file_of(alloc: Global, question: &str) -> Result<String, AllocError> {
    let mut file = String::new(alloc);
    for line in question.split('|') {
        file.push_str(line)?;
        file.push_str("\n")?;
    }
    Ok(file)
}

fn check_rows(rt: &impl Abort, alloc: Global, rows: &str) -> Result<(), Fail> {
    for row in rows.lines() {
        if let Some((question, want)) = row.split_once(" => ") {
            let file = file_of(alloc, question)?;
            let answer = read_rules(alloc, file.as_bytes())?;
            assert_eq!(rt; answer_text(alloc, &answer)?.as_str(), want, "{question}");
        }
    }
    Ok(())
}

#[test]
fn accepts_each_form(rt: HostRuntime) -> Result<(), Fail> {
    check_rows(&rt, rt.alloc(), ACCEPTED)
}

#[test]
fn refuses_what_is_no_toml(rt: HostRuntime) -> Result<(), Fail> {
    check_rows(&rt, rt.alloc(), NO_TOML)?;
    let answer = read_rules(rt.alloc(), b"deny = [] # \xff")?;
    assert_eq!(rt; answer, Err(RulesFault::Syntax));
    Ok(())
}

#[test]
fn names_the_first_fault(rt: HostRuntime) -> Result<(), Fail> {
    check_rows(&rt, rt.alloc(), SHAPES)
}

/// Rows of `TEXT * TIMES` between semicolons.
fn long_file(alloc: Global, row: &str) -> Result<String, Fail> {
    let mut file = String::new(alloc);
    for piece in row.split(';') {
        if let Some((text, times)) = piece.split_once('*') {
            let times: u32 = times.parse()?;
            for _ in 0..times {
                file.push_str(file_of(alloc, text)?.as_str())?;
            }
        }
    }
    Ok(file)
}

fn check_long(rt: &impl Abort, alloc: Global, row: &str, want: &str) -> Result<(), Fail> {
    let file = long_file(alloc, row)?;
    let answer = match read_rules(alloc, file.as_bytes())? {
        Err(fault) => fault_text(alloc, fault)?,
        Ok(rules) => format!(in alloc; "{} {}", rules.allow.len(), rules.deny.len())?,
    };
    assert_eq!(rt; answer.as_str(), want, "{row}");
    Ok(())
}

/// Answers of long files; of an accepted one, how many entries the two lists have.
#[test]
fn counts_the_entries(rt: HostRuntime) -> Result<(), Fail> {
    for (row, want) in [
        ("[[deny]]|class = 9*64", "0 64"),
        ("[[deny]]|class = 9*65", "too-many deny"),
        ("[[allow]]|class = 3*64;[[deny]]|class = 9*64", "64 64"),
        ("[[allow]]|class = 3*65", "too-many allow"),
        (
            "[[deny]]|class = 9*65;[[allow]]|class = 3*65",
            "too-many allow",
        ),
        (
            "[[deny]]|class = 9*67;[[deny]]*1;[[deny]]|class = 9*2",
            "shape deny 68",
        ),
        ("[[allow]]|class = 3*65;[[deny]]*1", "shape deny 1"),
        ("deny = [*1;1,*21000;]*1", "shape deny 1"),
        ("deny = [*1;{class=1},*5000;8]*1", "shape deny 5001"),
    ] {
        check_long(&rt, rt.alloc(), row, want)?;
    }
    Ok(())
}

#[test]
fn measures_the_file(rt: HostRuntime) -> Result<(), Fail> {
    let mut file = Vec::new(rt.alloc());
    for _ in 0..RULES_FILE_SIZE {
        file.push(b' ')?;
    }
    let answer = read_rules(rt.alloc(), file.as_slice())?;
    assert_eq!(rt; answer_text(rt.alloc(), &answer)?.as_str(), "none ; none");
    file.push(b' ')?;
    let answer = read_rules(rt.alloc(), file.as_slice())?;
    assert_eq!(rt; answer, Err(RulesFault::TooBig));
    Ok(())
}

const fn class_rule(class: u8) -> Rule {
    Rule {
        plug: None,
        vendor: None,
        product: None,
        class: Some(class),
    }
}

/// Where an allocation fails, which a run of the tests can ask for, the answer is want of memory, and else the whole answer.
#[test]
fn want_of_memory_is_told(rt: HostRuntime) {
    let file = b"[[deny]]\nclass = 8\n[[allow]]\nclass = 3\n[[allow]]\nclass = 11\n";
    let answer = read_rules(rt.alloc(), file);
    let counts = match &answer {
        Ok(Ok(rules)) => Some((rules.allow.len(), rules.deny.len())),
        Ok(Err(_)) => None,
        Err(AllocError) => return,
    };
    assert_eq!(rt; counts, Some((2, 1)));
    if let Ok(Ok(rules)) = &answer {
        assert_eq!(rt;
            rules.allow.as_slice(),
            [class_rule(3), class_rule(11)].as_slice()
        );
        assert_eq!(rt; rules.deny.as_slice(), [class_rule(8)].as_slice());
    }
}
