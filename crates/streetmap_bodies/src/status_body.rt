//! The body of the status of a service.
ghost use Rattle.std.specs.Prelude.{◌≡◌, IfOk, option_copied, string_bytes};
ghost use Rattle.serde_json.specs.View.{view};
ghost use Rattle.serde_json.specs.Written.{compact_text};
ghost use Rattle.streetmap_bodies.specs.Status as spec;

use serde_json::{Value, json};
use std::alloc::{AllocError, Global};

/// The version of the product.
pub const VERSION: &str = "0.1.0";

/// A key, or `null` if there is none.
fn key_value(alloc: Global, key: Option<&str>) -> Result<Value, AllocError>
    ensures { IfOk result (λ v. view v ≡ spec.key_data (option_copied key.entry)) }
{
    match key {
        Some(key) => json!(in alloc; key),
        None => Ok(Value::Null),
    }
}

/// The value of the status.
#[tactic(auto, unfolding(crate::specs::Status::status_data))]
fn status_value(
    alloc: Global,
    batches: u64,
    collections: u64,
    key: Option<&str>,
) -> Result<Value, AllocError>
    ensures { IfOk result (λ v. view v
        ≡ spec.status_data batches collections (option_copied key.entry)) }
{
    let key = key_value(alloc, key)?;
    json!(in alloc; {
        "batches": batches,
        "collections": collections,
        "key": key,
        "open": true,
        "version": VERSION
    })
}

/// The body of the status of a service whose store is open: how many batches it has accepted, how
/// many collections it has, and the key of the last batch, if any.
///
/// # Errors
///
/// Only that memory runs out.
pub fn status_text(
    alloc: Global,
    batches: u64,
    collections: u64,
    key: Option<&str>,
) -> Result<String, AllocError>
    ensures { IfOk result (λ text. string_bytes text
        ≡ compact_text (spec.status_data batches collections (option_copied key.entry))) }
{
    let value = status_value(alloc, batches, collections, key)?;
    let text = value.to_string(alloc)?;
    Ok(text)
}
