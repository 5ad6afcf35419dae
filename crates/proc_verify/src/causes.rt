// What typing finds of a part of a statement.
ghost use Rattle.std.specs.Prelude.{◌≡◌};
ghost use Rattle.proc_lang.specs.Typing.{wanted};

/// What is found of a part of a statement, or the cause for which the statement fails.
pub type Typed<T> = Result<T, u8>;

/// Fails for this cause, unless `holds`.
pub fn wanted(cause: u8, holds: bool) -> Typed<()>
    ensures { result ≡ wanted cause holds }
{
    if holds { Ok(()) } else { Err(cause) }
}
