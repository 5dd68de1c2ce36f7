//! Sessions at the latches, with answers found by hand from their rules.
//!
//! A row is `CALLS => ANSWERS`. For the key latch a call is the keys that are down, as `4,5,225`, or `up` for none, which
//! answers `TAKEN/REFUSED`; `take`, which answers `+4` for a press, `-4` for a release or `none`; `flush` and `clear`,
//! which answer nothing; or `tap31`, which presses and releases key 4 so many times. For the pointer latch the first is
//! `BUTTONS:X,Y,WHEEL`, and `tap31` clicks button 1. A row with `#` gives the reason for the next ones.
ghost use Rattle.std.specs.Prelude.{◌≡◌};
ghost use Rattle.psd_base.specs.KeySet.{is_passed_on};

use input_latch::{KeyChange, KeyLatch, Offered, PointerChange, PointerLatch};
use psd_base::{KeySet, Sample};
use std::alloc::{AllocError, Global};
use std::process::Abort;
use std::test::Fail;

const KEYS: &str = "
# nothing was pressed
up take => 0/0 none
# presses and releases come in order
4 up take take take => 1/0 1/0 +4 -4 none
4 4 4 take take => 1/0 0/0 0/0 +4 none
# releases of ordinary keys, of modifiers, presses of modifiers, of ordinary keys, each ascending
4,5,224 6,7,225 take take take take take take take take take => 3/0 6/0 +224 +4 +5 -4 -5 -224 +225 +6 +7
9,8,7 take take take take => 3/0 +7 +8 +9 none
231,230 224 take take take take take => 2/0 3/0 +230 +231 -230 -231 +224
164,163 up take take take take => 2/0 2/0 +163 +164 -163 -164
# six ordinary keys and a seventh
4,5,6,7,8,9 4,5,6,7,8,9,10 5,6,7,8,9,10 5,6,7,8,9,10,11 => 6/0 0/1 1/0 1/0
4,5,6,7,8,9,10 take take take take take take take => 6/1 +4 +5 +6 +7 +8 +9 none
# a refused press isn't tried again while the key stays down, and its release is nothing
4,5,6,7,8,9,10 10 up => 6/1 6/0 0/0
4,5,6,7,8,9,10 5,6,7,8,9,10 5,6,7,8,9,10 5,6,7,8,9 5,6,7,8,9,10 => 6/1 1/0 0/0 0/0 1/0
# modifiers beyond six keys
4,5,6,7,8,9 4,5,6,7,8,9,224,225,226,227,228,229,230,231 => 6/0 8/0
4,5,6,7,8,9,224,225,226,227,228,229,230,231 up => 14/0 14/0
4,5,6,7,8,9,10,224 5,6,7,8,9,11 => 7/1 3/0
# the worked row of a full latch: each press keeps a place for its release
tap31 4 4,5 4 up 4 => 62/0 1/0 0/1 0/0 1/0 0/1
tap31 4 up up 4 4 => 62/0 1/0 1/0 0/0 0/1 0/0
tap31 4,224 up => 62/0 1/1 1/0
tap30 4,5 4,5,6 up => 60/0 2/0 0/1 2/0
tap32 4 => 64/0 0/1
# at a full latch the refused press doesn't come when places are free again
tap32 4 take take take 4 up 4 => 64/0 0/1 +4 -4 +4 0/0 0/0 1/0
tap32 take 4 up take 4 => 64/0 +4 0/1 0/0 -4 1/0
# a key that is held keeps its place while the others fill up
4 4,5 4 4,5 up take take take take take => 1/0 1/0 1/0 1/0 2/0 +4 +5 -5 +5 -4
# a flush forgets changes and held keys, and keeps the set that was shown last
4 flush take => 1/0 none
4,5 flush 4,5 take => 2/0 0/0 none
4,5 flush 4 up take => 2/0 0/0 0/0 none
4 flush 4,6 take take => 1/0 1/0 +6 none
4 flush up 4 take take => 1/0 0/0 1/0 +4 none
4,5,6,7,8,9 flush 4,5,6,7,8,9,10,11 take => 6/0 2/0 +10
tap32 flush 4 take => 64/0 1/0 +4
4 take flush up take => 1/0 +4 0/0 none
# a clearing forgets all
4 clear 4 take take => 1/0 1/0 +4 none
4,5 take clear up 5 take => 2/0 +4 0/0 1/0 +5
tap32 clear 4 up take => 64/0 1/0 1/0 +4
clear flush take => none
";

const POINTERS: &str = "
# nothing happened
0:0,0,0 take => 0/0 none
# the worked row: one motion
0:300,-5,0 take take => 1/0 300,-5,0 none
# releases, presses and then the motion
5:0,0,0 18:1,2,3 take take take take take take take take => 2/0 5/0 +1 +3 -1 -3 +2 +5 1,2,3 none
31:0,0,0 0:0,0,0 take take take take take take => 5/0 5/0 +1 +2 +3 +4 +5 -1
1:0,0,0 1:0,0,0 take take => 1/0 0/0 +1 none
# motions are added up
0:1,2,3 0:4,-5,6 take take => 1/0 1/0 5,-3,9 none
0:1,0,0 0:-1,0,0 take take => 1/0 1/0 0,0,0 none
0:1,0,0 0:-1,0,0 0:0,0,2 take take => 1/0 1/0 1/0 0,0,2 none
0:1,0,0 0:0,0,0 0:0,1,0 take take => 1/0 0/0 1/0 1,1,0 none
# buttons among motions
0:1,0,0 1:2,0,0 1:3,0,0 0:4,0,0 take take take take take => 1/0 2/0 1/0 2/0 1,0,0 +1 5,0,0 -1 4,0,0
1:7,0,0 0:0,0,0 0:1,0,0 take take take take => 2/0 1/0 1/0 +1 7,0,0 -1 1,0,0
# a motion that was taken out isn't added to
0:1,0,0 take 0:2,0,0 take take => 1/0 1,0,0 1/0 2,0,0 none
0:1,0,0 1:0,0,0 take 1:2,0,0 take take => 1/0 1/0 1,0,0 1/0 +1 2,0,0
# sums at the ends of the range
0:2147483647,0,0 0:1,0,0 0:-1,0,0 take => 1/0 0/1 1/0 2147483646,0,0
0:0,0,-2147483647 0:0,0,-1 0:0,0,1 take => 1/0 0/1 1/0 0,0,-2147483646
0:2147483646,0,0 0:1,5,0 take => 1/0 1/0 2147483647,5,0
0:2147483647,2147483647,2147483647 0:-2147483647,-2147483647,-2147483647 take => 1/0 1/0 0,0,0
# one sum out of range refuses the whole motion
0:5,2147483647,0 0:1,1,1 take => 1/0 0/1 5,2147483647,0
# the full latch: a motion needs one place, a press two
tap31 0:1,0,0 0:1,0,0 1:0,0,0 take => 62/0 1/0 1/0 0/1 +1
tap31 1:1,0,0 1:2,0,0 0:0,0,0 take => 62/0 1/1 0/1 1/0 +1
tap31 1:0,0,0 0:1,0,0 0:2,0,0 => 62/0 1/0 1/1 0/1
tap32 0:1,0,0 take 0:1,0,0 => 64/0 0/1 +1 1/0
tap31 0:1,0,0 2:0,0,0 0:3,0,0 take take => 62/0 1/0 0/1 1/0 +1 -1
tap30 3:0,0,0 0:9,9,9 take => 60/0 2/0 2/1 +1
# a refused press isn't tried again, and its release is nothing
tap32 1:0,0,0 take take 1:0,0,0 0:0,0,0 => 64/0 0/1 +1 -1 0/0 0/0
# a flush keeps the buttons that were shown last
1:5,0,0 flush 1:0,0,0 0:0,0,0 take => 2/0 0/0 0/0 none
1:5,0,0 flush 3:1,0,0 take take take => 2/0 2/0 +2 1,0,0 none
0:5,0,0 flush 0:1,0,0 take take => 1/0 1/0 1,0,0 none
# a clearing forgets all
1:5,0,0 clear 1:0,0,0 take take => 2/0 1/0 +1 none
";

/// Whether a usage is that of a key that is passed on.
fn is_key(usage: u8) -> bool
    ensures { result ≡ is_passed_on usage }
{
    (0x04 <= usage && usage <= 0xa4) || (0xe0 <= usage && usage <= 0xe7)
}

/// The set of these keys, or of none where the word is `up`.
pub(crate) fn keys_of(word: &str) -> Result<KeySet, Fail> {
    let mut keys = KeySet::new();
    if word == "up" {
        return Ok(keys);
    }
    for usage in word.split(',') {
        let usage: u8 = usage.parse()?;
        if !is_key(usage) {
            return Err("no such key".into());
        }
        keys.add(usage);
    }
    Ok(keys)
}

pub(crate) fn sample_of(word: &str) -> Result<Sample, Fail> {
    let (buttons, motion) = word.split_once(':').ok_or("no buttons")?;
    let (x, motion) = motion.split_once(',').ok_or("no y")?;
    let (y, wheel) = motion.split_once(',').ok_or("no wheel")?;
    Ok(Sample {
        buttons: buttons.parse()?,
        x: x.parse()?,
        y: y.parse()?,
        wheel: wheel.parse()?,
    })
}

fn offered_text(alloc: Global, offered: Offered) -> Result<String, AllocError> {
    format!(in alloc; " {}/{}", offered.taken, offered.refused)
}

fn key_text(alloc: Global, change: Option<KeyChange>) -> Result<String, AllocError> {
    match change {
        None => String::from_str(alloc, " none"),
        Some(KeyChange::Press(usage)) => format!(in alloc; " +{usage}"),
        Some(KeyChange::Release(usage)) => format!(in alloc; " -{usage}"),
    }
}

fn pointer_text(alloc: Global, change: Option<PointerChange>) -> Result<String, AllocError> {
    match change {
        None => String::from_str(alloc, " none"),
        Some(PointerChange::Press(button)) => format!(in alloc; " +{button}"),
        Some(PointerChange::Release(button)) => format!(in alloc; " -{button}"),
        Some(PointerChange::Motion { x, y, wheel }) => format!(in alloc; " {x},{y},{wheel}"),
    }
}

/// So many presses and releases of key 4, all of them taken.
fn tap_keys(latch: &mut KeyLatch, times: u8) -> Result<u16, Fail> {
    let down = keys_of("4")?;
    let mut taken: u16 = 0;
    for _ in 0..times {
        taken = taken.saturating_add(latch.snapshot(&down).taken);
        taken = taken.saturating_add(latch.snapshot(&KeySet::new()).taken);
    }
    Ok(taken)
}

/// So many clicks of button 1, all of them taken.
fn tap_buttons(latch: &mut PointerLatch, times: u8) -> Result<u16, Fail> {
    let mut taken: u16 = 0;
    for _ in 0..times {
        taken = taken.saturating_add(show(latch, sample_of("1:0,0,0")?)?.taken);
        taken = taken.saturating_add(show(latch, sample_of("0:0,0,0")?)?.taken);
    }
    Ok(taken)
}

pub(crate) fn show(latch: &mut PointerLatch, sample: Sample) -> Result<Offered, Fail> {
    let least = -2_147_483_647;
    if sample.buttons < 32 && sample.x >= least && sample.y >= least && sample.wheel >= least {
        Ok(latch.sample(&sample))
    } else {
        Err("no such sample".into())
    }
}

/// Makes one call at the key latch, and appends its answer.
fn call_keys(
    alloc: Global,
    latch: &mut KeyLatch,
    word: &str,
    answers: &mut String,
) -> Result<(), Fail> {
    match word {
        "take" => answers.push_str(key_text(alloc, latch.take())?.as_str())?,
        "flush" => latch.flush(),
        "clear" => latch.clear(),
        _ => match word.strip_prefix("tap") {
            Some(times) => {
                let taken = tap_keys(latch, times.parse()?)?;
                answers.push_str(offered_text(alloc, Offered { taken, refused: 0 })?.as_str())?;
            }
            None => {
                let offered = latch.snapshot(&keys_of(word)?);
                answers.push_str(offered_text(alloc, offered)?.as_str())?;
            }
        },
    }
    Ok(())
}

/// Makes one call at the pointer latch, and appends its answer.
fn call_pointer(
    alloc: Global,
    latch: &mut PointerLatch,
    word: &str,
    answers: &mut String,
) -> Result<(), Fail> {
    match word {
        "take" => answers.push_str(pointer_text(alloc, latch.take())?.as_str())?,
        "flush" => latch.flush(),
        "clear" => latch.clear(),
        _ => match word.strip_prefix("tap") {
            Some(times) => {
                let taken = tap_buttons(latch, times.parse()?)?;
                answers.push_str(offered_text(alloc, Offered { taken, refused: 0 })?.as_str())?;
            }
            None => {
                let offered = show(latch, sample_of(word)?)?;
                answers.push_str(offered_text(alloc, offered)?.as_str())?;
            }
        },
    }
    Ok(())
}

fn check_keys(rt: &impl Abort, alloc: Global) -> Result<u32, Fail> {
    let mut rows: u32 = 0;
    for row in KEYS.lines() {
        if let Some((calls, want)) = row.split_once(" => ") {
            let mut latch = KeyLatch::new(alloc)?;
            let mut answers = String::new(alloc);
            for word in calls.split_whitespace() {
                call_keys(alloc, &mut latch, word, &mut answers)?;
            }
            assert_eq!(rt; answers.as_str().trim_start(), want, "{calls}");
            rows = rows.saturating_add(1);
        }
    }
    Ok(rows)
}

fn check_pointers(rt: &impl Abort, alloc: Global) -> Result<u32, Fail> {
    let mut rows: u32 = 0;
    for row in POINTERS.lines() {
        if let Some((calls, want)) = row.split_once(" => ") {
            let mut latch = PointerLatch::new(alloc)?;
            let mut answers = String::new(alloc);
            for word in calls.split_whitespace() {
                call_pointer(alloc, &mut latch, word, &mut answers)?;
            }
            assert_eq!(rt; answers.as_str().trim_start(), want, "{calls}");
            rows = rows.saturating_add(1);
        }
    }
    Ok(rows)
}

#[test]
fn keys_are_latched(rt: HostRuntime) -> Result<(), Fail> {
    assert_eq!(rt; check_keys(&rt, rt.alloc())?, 34);
    Ok(())
}

#[test]
fn pointers_are_latched(rt: HostRuntime) -> Result<(), Fail> {
    assert_eq!(rt; check_pointers(&rt, rt.alloc())?, 29);
    Ok(())
}
