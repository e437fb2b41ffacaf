//! What stands around values.
ghost use Rattle.std.specs.Prelude.{◌≡◌, ◌∷◌, IfSome, Some, None};
ghost use Rattle.json.specs.Json.{after_end_array, read_key};
ghost use Rattle.json.specs.Token.{begin_array, begin_object};

use json::{Reader, Token};

/// Passes the opening bracket of a list. `None` where none stands there; a token was taken then.
#[inline(always)]
pub fn take_list(reader: &mut Reader<'_>) -> Option<()>
    ensures { IfSome result (λ _. reader.old ≡ begin_array ∷ reader.new) }
{
    match reader.next()? {
        Token::BeginArray => Some(()),
        _ => None,
    }
}

/// Passes the closing bracket of a list. `None` where none stands there.
#[inline(always)]
pub fn take_list_end(reader: &mut Reader<'_>) -> Option<()>
    ensures { IfSome result (λ _. after_end_array reader.old ≡ Some reader.new) }
{
    if reader.take_end_array() {
        Some(())
    } else {
        None
    }
}

/// Passes the opening brace of an object. `None` where none stands there; a token was taken then.
#[inline(always)]
pub fn take_object(reader: &mut Reader<'_>) -> Option<()>
    ensures { IfSome result (λ _. reader.old ≡ begin_object ∷ reader.new) }
{
    match reader.next()? {
        Token::BeginObject => Some(()),
        _ => None,
    }
}

/// Passes a key. `None` where it doesn't stand there; a token was taken then.
#[inline(always)]
pub fn take_key(reader: &mut Reader<'_>, key: &str) -> Option<()>
    ensures { IfSome result (λ _. read_key reader.old ≡ Some (Some key.now, reader.new)) }
{
    match reader.next_key() {
        Ok(Some(found)) if found == key => Some(()),
        _ => None,
    }
}

/// Passes the closing brace of an object. `None` where none stands there; a token was taken then.
#[inline(always)]
pub fn take_object_end(reader: &mut Reader<'_>) -> Option<()>
    ensures { IfSome result (λ _. read_key reader.old ≡ Some (None, reader.new)) }
{
    match reader.next_key() {
        Ok(None) => Some(()),
        _ => None,
    }
}
