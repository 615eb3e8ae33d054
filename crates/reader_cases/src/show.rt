//! What is read, as answers write it.

use case_texts::{write_error, write_text};
use hpf_base::StaticError;
use std::alloc::AllocError;
use syntax_tree::Tree;
use tree_text::write_program;

/// Writes that a text is read, or its refusal.
pub fn write_verdict(out: &mut String, read: &Result<Tree, StaticError>) -> Result<(), AllocError> {
    match read {
        Ok(_) => out.push_str("  read\n"),
        Err(error) => write_error(out, *error),
    }
}

/// Writes the tree of a text, or its refusal.
pub fn write_tree(out: &mut String, read: &Result<Tree, StaticError>) -> Result<(), AllocError> {
    match read {
        Ok(tree) => write_program(out, tree),
        Err(error) => write_error(out, *error),
    }
}

/// Writes a text in free form, or its refusal.
pub fn write_free(out: &mut String, free: &Result<Vec<u8>, StaticError>) -> Result<(), AllocError> {
    match free {
        Ok(text) => {
            out.push_str("  ")?;
            write_text(out, text)?;
            out.push_str("\n")
        }
        Err(error) => write_error(out, *error),
    }
}
