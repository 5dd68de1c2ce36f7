//! A list of entries.
ghost use Rattle.std.specs.Prelude.{◌≡◌, ◌≤◌, ◌<◌, ◌+◌, ◌++◌, length, map, IfSome, option_map, option_to_list, filter_map};
ghost use Rattle.std.specs.List.{position_from};
ghost use Rattle.arrayvec.specs.ArrayVec.{array_vec_len};
ghost use Rattle.toml.specs.Data.{get_member};
ghost use Rattle.toml.specs.View.{view, table_view};
ghost use Rattle.admin_rules.specs.Entry.{rule_of as given_rule, is_faulty};
ghost use Rattle.admin_rules.specs.RuleFile.{entries_of, shape_fault as shape_fault_of, count_fault as count_fault_of};
ghost use Rattle.admin_rules.specs.Sizes.{HasArraysWithin};

use crate::entry::rule_of;
use crate::keys::value_at;
use arrayvec::ArrayVec;
use peripheral_filter::{RULES_MAX, Rule};
use psd_base::{RuleList, RulesFault};
use toml::{Table, Value};

/// The entries of the list at a key of the root: no entry where the key is missing, no answer where it holds no array.
pub fn entries_at<'a>(root: &'a Table, key: &str) -> Option<&'a [Value]>
    requires { HasArraysWithin u16.MAX (table_view root.now) }
    ensures entries { option_map (λ entries. map view entries.now) result
        ≡ entries_of (get_member key.now (table_view root.now)) }
    ensures small { IfSome result (λ entries. length entries.now ≤ u16.MAX) }
{
    match value_at(root, key) {
        None => Some(&[]),
        Some(value) => match value.as_array() {
            Some(array) => Some(array.as_slice()),
            None => None,
        },
    }
}

/// The fault of a list with a faulty entry.
pub fn shape_fault(list: RuleList, entries: &[Value]) -> Option<RulesFault>
    requires { length entries.now ≤ u16.MAX }
    ensures { result ≡ shape_fault_of list (map view entries.now) }
{
    match first_faulty(entries) {
        Some(number) => Some(RulesFault::Shape {
            list,
            entry: number as u16,
        }),
        None => None,
    }
}

/// The fault of a list that is too long.
pub fn count_fault(list: RuleList, entries: &[Value]) -> Option<RulesFault>
    ensures { result ≡ count_fault_of list (map view entries.now) }
{
    if entries.len() > RULES_MAX {
        Some(RulesFault::TooMany(list))
    } else {
        None
    }
}

/// The rules of a list without a faulty entry.
pub fn rules_from(entries: &[Value]) -> ArrayVec<Rule, RULES_MAX>
    requires { length entries.now ≤ RULES_MAX }
    ensures { result.items ≡ filter_map given_rule (map view entries.now) }
{
    let mut rules = ArrayVec::new();
    for entry in entries {
        keep(&mut rules, rule_of(entry));
    }
    rules
}

/// Appends a rule, if there is one.
fn keep(rules: &mut ArrayVec<Rule, RULES_MAX>, rule: Option<Rule>)
    requires { array_vec_len rules.old < RULES_MAX }
    ensures items { rules.new.items ≡ rules.old.items ++ option_to_list rule }
    ensures len { array_vec_len rules.new ≤ array_vec_len rules.old + 1 }
{
    match rule {
        Some(rule) => rules.push(rule),
        None => {}
    }
}

/// The number of the first faulty entry, from 1.
fn first_faulty(entries: &[Value]) -> Option<usize>
    ensures value { result ≡ position_from is_faulty 1 (map view entries.now) }
    ensures within { IfSome result (λ number. number ≤ length entries.now) }
{
    for (place, entry) in entries.iter().enumerate() {
        if rule_of(entry).is_none() {
            return Some(place + 1);
        }
    }
    None
}
