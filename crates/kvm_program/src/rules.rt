//! Takes the administrator's rules from the desk.
ghost use Rattle.std.specs.Prelude.{◌≡◌, ◌≢◌, ℕ, ◌+◌, ◌<◌, ◌≤◌, ◌++◌, List, [], length, take, option_map, Ok, Err, IfOk, IfErr, IfSome, OnErr, OnOk};
ghost use Rattle.psd_base.specs.Desk.{OnlyReads};
ghost use Rattle.admin_rules.specs.RuleFile.{lists_of, rules_of};
ghost use Rattle.kvm_program.specs.Rules.{FewRulesTaken, FileStops, JudgeStops, RulesStop, TakesAtMost, front_of};

use admin_rules::{RULES_FILE_SIZE, read_rules};
use capture_reader::read_behind;
use peripheral_filter::RuleSet;
use psd_base::desk::Desk;
use psd_base::outlet::Input;
use psd_base::stop::Stop;
use std::alloc::{AllocError, Global};

/// How many bytes of the rules are read at most: one more than they may have.
pub const RULES_READ: usize = RULES_FILE_SIZE + 1;

/// Reads the rules and judges them. Memory for them is taken before they are read.
pub fn take_rules<D: Desk>(alloc: Global, desk: &mut D) -> Result<RuleSet, Stop>
    ensures rules { IfOk result (λ rules. IfSome ((D.told desk.old).left Input.Rules)
        (λ bytes. rules_of bytes ≡ Ok (lists_of rules))) }
    ensures stop { IfErr result (RulesStop (D.told desk.old) (D.told desk.new)) }
    ensures few { FewRulesTaken (D.told desk.old) (D.told desk.new) }
    ensures only { OnlyReads Input.Rules (D.told desk.old) (D.told desk.new) }
{
    let bytes = read_rule_file(alloc, desk)?;
    judge(alloc, bytes.as_slice())
}

/// The rules that these bytes say.
fn judge(alloc: Global, bytes: &[u8]) -> Result<RuleSet, Stop>
    ensures rules { IfOk result (λ rules. rules_of bytes.now ≡ Ok (lists_of rules)) }
    ensures stop { IfErr result (JudgeStops (rules_of bytes.now)) }
{
    match read_rules(alloc, bytes) {
        Ok(Ok(rules)) => Ok(rules),
        Ok(Err(fault)) => Err(Stop::Rules(fault)),
        Err(_) => Err(Stop::OutOfMemory),
    }
}

/// Reads the rules up to their end, or up to `RULES_READ` bytes.
fn read_rule_file<D: Desk>(alloc: Global, desk: &mut D) -> Result<Vec<u8>, Stop>
    ensures bytes { IfOk result (λ bytes. IfSome ((D.told desk.old).left Input.Rules) (λ all. bytes.items
        ≡ front_of all)) }
    ensures stop { IfErr result (FileStops (D.told desk.old) (D.told desk.new)) }
    ensures few { FewRulesTaken (D.told desk.old) (D.told desk.new) }
    ensures only { OnlyReads Input.Rules (D.told desk.old) (D.told desk.new) }
{
    match room_for_rules(alloc) {
        Ok(bytes) => read_into(desk, bytes),
        Err(_) => Err(Stop::OutOfMemory),
    }
}

/// Room for as many bytes as are read.
fn room_for_rules(alloc: Global) -> Result<Vec<u8>, AllocError>
    ensures { IfOk result (λ bytes. length bytes.items ≡ RULES_READ) }
{
    vec![in alloc; 0; RULES_READ]
}

/// Reads the rules into this room, and gives the bytes that there are.
fn read_into<D: Desk>(desk: &mut D, room: Vec<u8>) -> Result<Vec<u8>, Stop>
    ensures bytes { IfOk result (λ bytes. IfSome ((D.told desk.old).left Input.Rules) (λ all. bytes.items
        ≡ take (length room.items) all)) }
    ensures stop { IfErr result (FileStops (D.told desk.old) (D.told desk.new)) }
    ensures few { TakesAtMost (length room.items) ((D.told desk.old).left Input.Rules)
        ((D.told desk.new).left Input.Rules) }
    ensures only { OnlyReads Input.Rules (D.told desk.old) (D.told desk.new) }
{
    let mut bytes = room;
    let count = fill(desk, bytes.as_mut_slice())?;
    bytes.truncate(count);
    Ok(bytes)
}

/// Reads the rules to the front of `into`, up to their end or until it is full, and answers how many bytes there are.
fn fill<D: Desk>(desk: &mut D, into: &mut [u8]) -> Result<usize, Stop>
    ensures within { IfOk result (λ count. count ≤ length into.old) }
    ensures bytes { IfOk result (λ count. IfSome ((D.told desk.old).left Input.Rules)
        (λ all. take count into.new ≡ take (length into.old) all)) }
    ensures stop { IfErr result (FileStops (D.told desk.old) (D.told desk.new)) }
    ensures few { TakesAtMost (length into.old) ((D.told desk.old).left Input.Rules)
        ((D.told desk.new).left Input.Rules) }
    ensures only { OnlyReads Input.Rules (D.told desk.old) (D.told desk.new) }
{
    let mut count = 0;
    let mut going = true;
    'reads: while going && count < into.len() {
        let more = match read_behind(desk, Input::Rules, into, count) {
            Ok(more) => more,
            Err(_) => return Err(Stop::ReadFault(Input::Rules)),
        };
        count += more;
        going = more > 0;
    }
    Ok(count)
}
