//! The rule file's bytes as a TOML document.
ghost use Rattle.std.specs.Prelude.{◌≡◌, ◌≤◌, length, IfOk, IfSome, option_map};
ghost use Rattle.toml.specs.View.{table_view};
ghost use Rattle.admin_rules.specs.Document.{document_of};
ghost use Rattle.admin_rules.specs.Sizes.{HasArraysWithin};

use crate::RULES_FILE_SIZE;
use std::alloc::{AllocError, Global};
use toml::Table;

/// The root table of the document that the bytes are; none where they aren't UTF-8 or no TOML document.
#[tactic(auto, unfolding(crate::specs::Document::document_of))]
pub fn read_document(alloc: Global, bytes: &[u8]) -> Result<Option<Table>, AllocError>
    requires { length bytes.now ≤ RULES_FILE_SIZE }
    ensures document { IfOk result (λ root. option_map table_view root ≡ document_of bytes.now) }
    ensures small { IfOk result (λ root. IfSome root (λ table. HasArraysWithin u16.MAX (table_view table))) }
{
    let text = match std::str::from_utf8(bytes) {
        Ok(text) => text,
        Err(_) => return Ok(None),
    };
    match toml::table_from_str(alloc, text) {
        Ok(root) => Ok(Some(root)),
        Err(error) => {
            if error.is_memory() {
                Err(AllocError)
            } else {
                Ok(None)
            }
        }
    }
}
