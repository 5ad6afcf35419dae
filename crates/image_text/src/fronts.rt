// The catalogue that a body begins with.
ghost use Rattle.std.specs.Prelude.{◌≡◌, ◌<◌, ◌≤◌, ◌++◌, [], ◌∷◌, length, IfOk, OnOk, option_map};
ghost use Rattle.proc_lang.specs.Catalogs.{IsCatalog};
ghost use Rattle.cat_forms.specs.Texts.{Tells};
ghost use Rattle.cat_text.specs.Texts.{catalog_of};
ghost use Rattle.image_text.specs.Exactly.{found};
ghost use Rattle.image_text.specs.Fronts.{catalog_text, piece_line, pieces_text, front_text, behind, joined, with_plan, front_of};
ghost use Rattle.std.specs.Option.{IfSome};

use aria_base::Memory;
use cat_text::catalog_of;
use cat_write::write_catalog;
use proc_lang::Catalog;
use script_text::{LinesRefused, cut_at};
use std::alloc::Global;

/// The bytes of a piece, but for the last one, which may be shorter.
pub const PIECE: usize = 4000;

/// The line that a body begins with, and its line feed.
const TITLE: [u8; 13] = *b"catalog text\n";

/// What a piece begins with.
const COLON: [u8; 1] = *b":";

/// Appends the catalogue as a body begins with it. Where there was no memory, a part of it may stand in
/// `out`.
pub fn append_front(out: &mut Vec<u8>, catalog: &Catalog) -> Result<(), Memory>
    ensures text { OnOk result (out.new.items ≡ out.old.items ++ front_text catalog.now) }
    ensures told { OnOk result (Tells (catalog_text catalog.now) catalog.now) }
    ensures catalog { OnOk result (IsCatalog catalog.now) }
{
    catalog.schema(); // which says that its names, bounds and types are in order
    let text = write_catalog(*out.allocator(), catalog)?;
    out.extend_from_slice(&TITLE)?;
    append_pieces(out, text.as_slice())
}

/// Appends a text in pieces, a line each.
fn append_pieces(out: &mut Vec<u8>, text: &[u8]) -> Result<(), Memory>
    ensures { OnOk result (out.new.items ≡ out.old.items ++ pieces_text text.now) }
{
    let mut rest = text;
    while rest.len() > PIECE {
        rest = append_first(out, rest)?;
    }
    append_last(out, rest)
}

/// Appends the first piece of a text that has more, and gives what stands behind it.
fn append_first<'a>(out: &mut Vec<u8>, text: &'a [u8]) -> Result<&'a [u8], Memory>
    requires { PIECE < length text.now }
    ensures pieces { IfOk result (λ rest. out.new.items ++ pieces_text rest.now ≡ out.old.items ++ pieces_text text.now) }
    ensures rest { IfOk result (λ rest. length rest.now < length text.now) }
{
    let (piece, rest) = text.split_at(PIECE);
    append_piece(out, piece)?;
    Ok(rest)
}

/// Appends the last piece, where there is one.
#[tactic(auto, using(crate::proofs::FrontsRead::no_text))]
fn append_last(out: &mut Vec<u8>, text: &[u8]) -> Result<(), Memory>
    requires { length text.now ≤ PIECE }
    ensures { OnOk result (out.new.items ≡ out.old.items ++ pieces_text text.now) }
{
    if text.is_empty() {
        return Ok(());
    }
    append_piece(out, text)
}

/// Appends the line of a piece.
fn append_piece(out: &mut Vec<u8>, piece: &[u8]) -> Result<(), Memory>
    ensures { OnOk result (out.new.items ≡ out.old.items ++ piece_line piece.now ++ 10 ∷ []) }
{
    out.push(b':')?;
    out.extend_from_slice(piece)?;
    out.push(b'\n')?;
    Ok(())
}

/// The catalogue at the beginning, and what stands behind it.
pub fn read_front(alloc: Global, bytes: &[u8]) -> Result<Option<(Catalog, &[u8])>, Memory>
    ensures front { IfOk result (λ found. option_map (λ front. (front.0, front.1.now)) found ≡ front_of bytes.now) }
    ensures catalog { IfOk result (λ found. IfSome found (λ front. IsCatalog front.0)) }
    ensures told { IfOk result (λ found. IfSome found (λ front. Tells (catalog_text front.0) front.0)) }
{
    let Some(pieces) = behind(&TITLE, bytes) else {
        return Ok(None);
    };
    let Some(text) = joined(alloc, pieces)? else {
        return Ok(None);
    };
    let Some(catalog) = catalog_in(alloc, text.as_slice())? else {
        return Ok(None);
    };
    with_catalog(alloc, bytes, catalog)
}

/// The catalogue, where its text is written again as it stands at the beginning.
fn with_catalog(
    alloc: Global,
    bytes: &[u8],
    catalog: Catalog,
) -> Result<Option<(Catalog, &[u8])>, Memory>
    ensures front { IfOk result (λ found. option_map (λ front. (front.0, front.1.now)) found ≡ with_plan bytes.now catalog) }
    ensures catalog { IfOk result (λ found. IfSome found (λ front. IsCatalog front.0)) }
    ensures told { IfOk result (λ found. IfSome found (λ front. Tells (catalog_text front.0) front.0)) }
{
    let mut front = Vec::new(alloc);
    append_front(&mut front, &catalog)?;
    let Some(rest) = behind(front.as_slice(), bytes) else {
        return Ok(None);
    };
    Ok(Some((catalog, rest)))
}

/// The catalogue that a text says.
fn catalog_in(alloc: Global, text: &[u8]) -> Result<Option<Catalog>, Memory>
    ensures { IfOk result (λ catalog. catalog ≡ found (catalog_of text.now)) }
{
    match catalog_of(alloc, text, 0) {
        Ok(catalog) => Ok(Some(catalog)),
        Err(LinesRefused::Memory) => Err(Memory),
        Err(LinesRefused::Line(_)) => Ok(None),
    }
}

/// What stands behind these bytes.
fn behind<'a>(front: &[u8], bytes: &'a [u8]) -> Option<&'a [u8]>
    ensures { option_map (λ rest. rest.now) result ≡ behind front.now bytes.now }
{
    bytes.strip_prefix(front)
}

/// The pieces at the beginning, joined.
#[tactic(auto, using(crate::proofs::FrontsRead::no_colon, crate::proofs::FrontsRead::shorter))]
fn joined(alloc: Global, bytes: &[u8]) -> Result<Option<Vec<u8>>, Memory>
    ensures { IfOk result (λ found. option_map (λ text. text.items) found ≡ joined bytes.now) }
{
    let mut text = Vec::new(alloc);
    let mut rest = bytes;
    while let Some(line) = behind(&COLON, rest) {
        let Some((piece, after)) = cut_at(line, b'\n') else {
            return Ok(None);
        };
        text.extend_from_slice(piece)?;
        rest = after;
    }
    Ok(Some(text))
}
