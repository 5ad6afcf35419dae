// An image, and the text of its body.
ghost use Rattle.std.specs.Prelude.{◌≡◌, ◌≤◌, ◌↔◌, true, IsTrue, IfOk, IfSome, option_map};
ghost use Rattle.std.specs.List.{All};
ghost use Rattle.aria_base.specs.Schemas.{IsConsistent};
ghost use Rattle.aria_base.specs.declared.limits.TheConstants.{GREATEST_NUMBER};
ghost use Rattle.proc_lang.specs.Catalogs.{takes};
ghost use Rattle.checkpoint.specs.declared.heads.Head.{Head as Front};
ghost use Rattle.image_text.specs.Bodies.{body_text};
ghost use Rattle.batch_core.specs.Serial.{RiseWithin};
ghost use Rattle.slot_images.specs.Images.{MayCarry, IsBodyFor, BodyReads, body_reading};
ghost use Rattle.slot_images.specs.Said.{head_in, checkpoint_in, IsFitting};

use aria_base::{MOST_REQUESTS, Memory, Request};
use batch_rules::verdicts::Rule;
use checkpoint::Head;
use image_text::{body_of, read_body};
use proc_lang::Catalog;
use std::alloc::Global;
use tbl_rows::Tables;

/// A checkpoint of a database: what a store has to know of all batches before it.
#[derive(Drop)]
pub struct Image {
    /// The format of the store: 1 or 2.
    pub format: u8,
    /// By which rule the last batch before it was run; where none was, the rule that the store was made with.
    pub rule: Rule,
    /// The fallback that goes with the rule, in percent, from 0 to 101.
    pub fallback: u32,
    /// The checkpoint's number, from 1. Its parity is that of the slot.
    pub generation: u64,
    /// How many batches were run before it, at most 2^62.
    pub batches: u64,
    /// How many requests were numbered before it, at most 2^62.
    pub requests: u64,
    /// The tables and the procedures.
    pub catalog: Catalog,
    /// The rows.
    pub tables: Tables,
    /// The requests that wait for the next batch, by rising numbers, at most 10,000.
    pub held: Vec<Request>,
}

impl Image {
    /// What stands before its body. No memory.
    pub fn head(&self) -> Head
        ensures { result ≡ head_in self.now }
    {
        Head {
            format: self.format,
            rule: self.rule,
            fallback: self.fallback,
            generation: self.generation,
            batches: self.batches,
            requests: self.requests,
        }
    }
}

/// The body of a checkpoint with this catalogue, these rows and these requests that are carried over.
/// It stands for them behind every head that may carry the requests.
pub fn body_for(
    alloc: Global,
    catalog: &Catalog,
    tables: &Tables,
    held: &[Request],
) -> Result<Vec<u8>, Memory>
    requires rows { IsConsistent catalog.now.tables tables.now }
    requires calls { All (λ request. takes catalog.now request.call ≡ true) held.now }
    ensures text { IfOk result (λ body. body.items ≡ body_text catalog.now tables.now held.now) }
    ensures body { IfOk result (λ body. (head : Front) → head.requests ≤ GREATEST_NUMBER → MayCarry head held.now → IsBodyFor head body.items (catalog.now, tables.now, held.now)) }
{
    body_of(alloc, catalog, tables, held)
}

/// The image that a head and a body make, where the body is the text of values that the head may carry.
pub fn image_of(alloc: Global, head: &Head, body: &[u8]) -> Result<Option<Image>, Memory>
    ensures image { IfOk result (λ found. BodyReads head.now body.now (body_reading (option_map checkpoint_in found))) }
    ensures fit { IfOk result (λ found. IfSome found (λ image. IsFitting (checkpoint_in image))) }
{
    let Some((catalog, tables, held)) = read_body(alloc, body)? else {
        return Ok(None);
    };
    if !may_carry(head, held.as_slice()) {
        return Ok(None);
    }
    Ok(Some(Image {
        format: head.format,
        rule: head.rule,
        fallback: head.fallback,
        generation: head.generation,
        batches: head.batches,
        requests: head.requests,
        catalog,
        tables,
        held,
    }))
}

/// Whether a checkpoint with this head may carry these requests over.
fn may_carry(head: &Head, held: &[Request]) -> bool
    ensures { IsTrue result ↔ MayCarry head.now held.now }
{
    held.len() <= MOST_REQUESTS && rise_within(held, head.requests)
}

/// Whether the numbers of the requests rise, from 1 at least to `high` at most.
fn rise_within(held: &[Request], high: u64) -> bool
    ensures { IsTrue result ↔ RiseWithin (λ request. request.q) 0 held.now high }
{
    let mut low = 0;
    for request in held {
        if request.q <= low {
            return false;
        }
        low = request.q;
    }
    low <= high
}
