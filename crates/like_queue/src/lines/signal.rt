ghost use Rattle.std.specs.Prelude.{◌≡◌, true, IfSome};

use std::sync::{OnceLock, OnceToken, Wait};

/// Tells the threads to go on if all were started, and else to end.
pub fn tell<'a, R: Wait>(
    rt: &R,
    start: &'a OnceLock<bool>,
    all: bool,
) -> Option<OnceToken<'a, bool>>
    ensures of { IfSome result (λ token. token.of ≡ start.now.id) }
    ensures goes { IfSome result (λ token. token.value ≡ true) }
    ensures all { IfSome result (λ token. all ≡ true) }
{
    match start.set(rt, all) {
        Ok(token) if all => Some(token),
        _ => None,
    }
}

/// Waits until the threads are told to go on, or to end.
pub fn hear<'a, R: Wait>(rt: &R, start: &'a OnceLock<bool>) -> OnceToken<'a, bool>
    ensures { result.of ≡ start.now.id }
{
    for _ in rt.forever() {
        start.wait(rt);
        if let Some(token) = start.witness() {
            return token;
        }
    }
    unreachable!()
}
