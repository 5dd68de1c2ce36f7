//! The rule file as a whole.
ghost use Rattle.std.specs.Prelude.{◌≡◌, ◌<◌, ◌≤◌, ◌↔◌, IfOk, map, length};
ghost use Rattle.toml.specs.View.{view, table_view};
ghost use Rattle.admin_rules.specs.Keys.{all_keys};
ghost use Rattle.admin_rules.specs.RuleFile.{given, is_list_key as is_list, refusal as refusal_of, rules_of, rules_in as rules_of_root, rules_from as rules_of_lists};
ghost use Rattle.admin_rules.specs.Sizes.{HasArraysWithin};

use crate::document::read_document;
use crate::entry_list::{count_fault, entries_at, rules_from, shape_fault};
use peripheral_filter::RuleSet;
use psd_base::{RuleList, RulesFault};
use std::alloc::{AllocError, Global};
use toml::{Table, Value};

/// The bytes that a rule file has at most.
pub const RULES_FILE_SIZE: usize = 65_536;

/// Reads a rule file.
///
/// The file is a TOML document whose root has no keys but `allow` and `deny`, each an array of tables. An entry
/// has one or more of the keys `plug` ("keyboard", "mouse" or "token"), `vendor` and `product` (0 to 65,535) and
/// `class` (0 to 255), and no others. The rules are the file's entries in their order.
///
/// The first of these faults is named: more than 65,536 bytes; no TOML document; another root key, or an `allow` or
/// `deny` that is no array (entry 0 of the root); the first faulty entry of `allow`, from 1; that of `deny`; more
/// than 64 entries in `allow`; in `deny`.
///
/// `AllocError` says that memory ran out. It may come in place of every answer but `TooBig`.
#[tactic(auto, unfolding(crate::specs::RuleFile::rules_of))]
pub fn read_rules(alloc: Global, bytes: &[u8]) -> Result<Result<RuleSet, RulesFault>, AllocError>
    ensures exact { IfOk result (λ answer. given answer ≡ rules_of bytes.now) }
    ensures too_big { (result ≡ Ok (Err RulesFault.TooBig)) ↔ (RULES_FILE_SIZE < length bytes.now) }
{
    if bytes.len() > RULES_FILE_SIZE {
        return Ok(Err(RulesFault::TooBig));
    }
    match read_document(alloc, bytes) {
        Ok(Some(root)) => Ok(rules_in(&root)),
        Ok(None) => Ok(Err(RulesFault::Syntax)),
        Err(error) => Err(error),
    }
}

/// The rules of a document.
#[tactic(auto, unfolding(crate::specs::RuleFile::rules_in))]
fn rules_in(root: &Table) -> Result<RuleSet, RulesFault>
    requires { HasArraysWithin u16.MAX (table_view root.now) }
    ensures { given result ≡ rules_of_root (table_view root.now) }
{
    if !has_list_keys(root) {
        return Err(ROOT_FAULT);
    }
    match (entries_at(root, "allow"), entries_at(root, "deny")) {
        (Some(allow), Some(deny)) => rules_of_entries(allow, deny),
        _ => Err(ROOT_FAULT),
    }
}

/// The fault of a root that isn't two arrays.
const ROOT_FAULT: RulesFault = RulesFault::Shape {
    list: RuleList::Root,
    entry: 0,
};

/// Whether the root has only keys that it may have.
fn has_list_keys(root: &Table) -> bool
    ensures { result ≡ all_keys is_list (table_view root.now) }
{
    'members: for (key, _value) in root.iter() {
        if !is_list_key(key.as_str()) {
            return false;
        }
    }
    true
}

#[tactic(auto, unfolding(crate::specs::RuleFile::is_list_key))]
fn is_list_key(key: &str) -> bool
    ensures { result ≡ is_list key.now }
{
    key == "allow" || key == "deny"
}

/// The rules of two lists of entries.
fn rules_of_entries(allow: &[Value], deny: &[Value]) -> Result<RuleSet, RulesFault>
    requires allow { length allow.now ≤ u16.MAX }
    requires deny { length deny.now ≤ u16.MAX }
    ensures { given result ≡ rules_of_lists (map view allow.now) (map view deny.now) }
{
    match refusal(allow, deny) {
        Some(fault) => Err(fault),
        None => Ok(RuleSet {
            allow: rules_from(allow),
            deny: rules_from(deny),
        }),
    }
}

/// The first fault of two lists of entries.
fn refusal(allow: &[Value], deny: &[Value]) -> Option<RulesFault>
    requires allow { length allow.now ≤ u16.MAX }
    requires deny { length deny.now ≤ u16.MAX }
    ensures { result ≡ refusal_of (map view allow.now) (map view deny.now) }
{
    shape_fault(RuleList::Allow, allow)
        .or(shape_fault(RuleList::Deny, deny))
        .or(count_fault(RuleList::Allow, allow))
        .or(count_fault(RuleList::Deny, deny))
}
