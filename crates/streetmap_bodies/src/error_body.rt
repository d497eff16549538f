//! The body of an error.
ghost use Rattle.std.specs.Prelude.{◌≡◌, ◌≤◌, ◌+◌, ◌++◌, string_bytes};
ghost use Rattle.std.specs.Prelude.{string_len, string_capacity};
ghost use Rattle.std.specs.Option.{ForSome, option_copied};
ghost use Rattle.serde_json.specs.Written.{compact_text};
ghost use Rattle.streetmap_bodies.specs.Errors.{error_data, cause_text, place_text};
ghost use Rattle.streetmap_bodies.specs.Plain.{IsPlain};

use streetmap_http::{push, push_number};

/// Appends the member `cause`, if any.
fn push_cause(out: &mut String, cause: Option<&str>)
    requires room { string_len out.old + 80 ≤ string_capacity out.old }
    requires plain { ForSome (option_copied cause) IsPlain }
    ensures bytes { string_bytes out.new
        ≡ string_bytes out.old ++ cause_text (option_copied cause.entry) }
    ensures len { string_len out.new ≤ string_len out.old + 80 }
    ensures capacity { string_capacity out.old ≤ string_capacity out.new }
{
    if let Some(name) = cause {
        push(out, "\"cause\":\"");
        push(out, name);
        push(out, "\",");
    }
}

/// Appends the member `place`, if any.
fn push_place(out: &mut String, place: Option<u64>)
    requires { string_len out.old + 32 ≤ string_capacity out.old }
    ensures bytes { string_bytes out.new ≡ string_bytes out.old ++ place_text place }
    ensures len { string_len out.new ≤ string_len out.old + 32 }
    ensures capacity { string_capacity out.old ≤ string_capacity out.new }
{
    if let Some(number) = place {
        push(out, ",\"place\":");
        push_number(out, number);
    }
}

/// Appends the body of an error: its code and sentence, the place of the edit or feature at fault
/// (counted from 1), if any, and the name of the fault within that feature, if any. `out` must have
/// room for 320 bytes, so that no memory is allocated.
pub fn push_error(
    out: &mut String,
    code: &str,
    description: &str,
    place: Option<u64>,
    cause: Option<&str>,
)
    requires room { string_len out.old + 320 ≤ string_capacity out.old }
    requires plain_code { IsPlain code.now }
    requires plain_description { IsPlain description.now }
    requires plain_cause { ForSome (option_copied cause) IsPlain }
    ensures bytes { string_bytes out.new
        ≡ string_bytes out.old ++ compact_text
        (error_data code.now description.now place (option_copied cause.entry)) }
    ensures len { string_len out.new ≤ string_len out.old + 320 }
    ensures capacity { string_capacity out.old ≤ string_capacity out.new }
{
    push(out, "{");
    push_cause(out, cause);
    push(out, "\"code\":\"");
    push(out, code);
    push(out, "\",\"description\":\"");
    push(out, description);
    push(out, "\"");
    push_place(out, place);
    push(out, "}");
}
