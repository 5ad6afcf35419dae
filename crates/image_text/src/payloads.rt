// The payload of a log record.
ghost use Rattle.std.specs.Prelude.{◌≡◌, ◌<◌, ◌≤◌, ◌++◌, ◌∷◌, All, true, [], length, IfOk, OnOk, MatchOption, option_map};
ghost use Rattle.aria_base.specs.declared.calls.Call.{Call as Plain};
ghost use Rattle.std.specs.Option.{IfSome};
ghost use Rattle.proc_lang.specs.Catalogs.{takes};
ghost use Rattle.script_text.specs.Written.{IsArgs};
ghost use Rattle.image_text.specs.Lines.{written};
ghost use Rattle.image_text.specs.Exactly.{line_of_call};
ghost use Rattle.image_text.specs.Payloads.{Batch, rule_byte, rule_of, payload_text, push, IsPayload, IsThat, IsCalls, AreCalls};

use crate::exactly::{append_line, exact_call};
use crate::lines::{LineTaker, take_lines};
use aria_base::{Call, MOST_PERCENT, Memory};
use batch_rules::verdicts::Rule;
use proc_lang::Catalog;
use std::alloc::Global;
use std::marker::Model;

/// What a log record says of a batch.
#[derive(Debug, Drop)]
pub struct Logged {
    /// The rule that the batch is run by.
    pub rule: Rule,
    /// Its fallback in percent, from 0 to 101.
    pub fallback: u32,
    /// Its new calls, in their order.
    pub calls: Vec<Call>,
}

/// Calls, taken from their lines. A contract sees their list.
#[derive(Drop)]
struct Calls {
    calls: Vec<Call>,
}

impl Model for Calls {
    ghost use Rattle.std.specs.Prelude.{List, All};
    ghost use Rattle.aria_base.specs.declared.calls.Call.{Call as Plain};
    ghost use Rattle.script_text.specs.Written.{IsArgs};

    ghost Value = { List Plain };

    ghost view = { λ a. a.calls.items };

    ghost invariant = { λ a. All (λ call. IsArgs call.args) a.calls.items };
}

impl Calls {
    /// No calls. No memory.
    fn new(alloc: Global) -> Calls
        ensures { result ≡ [] }
    {
        Calls {
            calls: Vec::new(alloc),
        }
    }

    /// The calls. No memory.
    fn into_vec(self) -> Vec<Call>
        ensures calls { result.items ≡ self }
        ensures held { All (λ call. IsArgs call.args) self }
    {
        self.calls
    }

    /// Takes a call.
    fn with_call(self, call: Call) -> Result<Option<Calls>, Memory>
        requires { IsArgs call.args }
        ensures { IfOk result (λ next. next ≡ push self call) }
    {
        let mut calls = self.into_vec();
        calls.push(call)?;
        Ok(Some(Calls { calls }))
    }
}

impl LineTaker for Calls {
    ghost use Rattle.image_text.specs.Lines.{written};
    ghost use Rattle.image_text.specs.Exactly.{line_of_call};
    ghost use Rattle.image_text.specs.Payloads.{take};

    ghost taken = { take };

    fn take(
        self,
        catalog: &Catalog,
        line: &[u8],
        again: &mut Vec<u8>,
    ) -> Result<Option<Calls>, Memory> {
        match exact_call(catalog, line, again)? {
            Some(call) => self.with_call(call),
            None => Ok(None),
        }
    }
}

/// The payload of a record: the rule's byte, 0 for plain and 1 for reorder, the fallback's byte, and a
/// line for each call. It reads as this batch.
pub fn payload_of(
    alloc: Global,
    catalog: &Catalog,
    calls: &[Call],
    rule: Rule,
    fallback: u32,
) -> Result<Vec<u8>, Memory>
    requires calls { All (λ call. takes catalog.now call ≡ true) calls.now }
    requires fallback { fallback ≤ MOST_PERCENT }
    ensures text { IfOk result (λ payload. payload.items ≡ payload_text catalog.now (record { rule = rule; fallback = fallback; calls = calls.now })) }
    ensures again { IfOk result (λ payload. IsPayload catalog.now payload.items (record { rule = rule; fallback = fallback; calls = calls.now })) }
{
    let mut payload = Vec::new(alloc);
    payload.push(rule_byte(rule))?;
    payload.push(fallback as u8)?;
    append_calls(&mut payload, catalog, calls)?;
    Ok(payload)
}

/// Appends the lines of calls.
fn append_calls(out: &mut Vec<u8>, catalog: &Catalog, calls: &[Call]) -> Result<(), Memory>
    ensures text { OnOk result (out.new.items ≡ out.old.items ++ written (line_of_call catalog.now) calls.now) }
    ensures args { OnOk result (All (λ call. IsArgs call.args) calls.now) }
{
    for call in calls {
        append_ended(out, catalog, call)?;
    }
    Ok(())
}

/// Appends the line of a call, and its line feed.
fn append_ended(out: &mut Vec<u8>, catalog: &Catalog, call: &Call) -> Result<(), Memory>
    ensures text { OnOk result (out.new.items ≡ out.old.items ++ (line_of_call catalog.now call.now ++ 10 ∷ [])) }
    ensures args { OnOk result (IsArgs call.now.args) }
{
    append_line(out, catalog, call)?;
    out.push(b'\n')?;
    Ok(())
}

/// The byte of a rule.
fn rule_byte(rule: Rule) -> u8
    ensures { result ≡ rule_byte rule }
{
    match rule {
        Rule::Plain => 0,
        Rule::Reorder => 1,
    }
}

/// The batch of which this is the payload, exactly where it is the payload of one whose calls fit.
pub fn read_payload(
    alloc: Global,
    catalog: &Catalog,
    bytes: &[u8],
) -> Result<Option<Logged>, Memory>
    ensures batch { IfOk result (λ found. IsThat catalog.now bytes.now (option_map (λ b. record { rule = b.rule; fallback = b.fallback; calls = b.calls.items }) found)) }
    ensures fallback { IfOk result (λ found. IfSome found (λ b. b.fallback ≤ MOST_PERCENT)) }
    ensures fit { IfOk result (λ found. IfSome found (λ b. All (λ call. takes catalog.now call ≡ true) b.calls.items)) }
{
    let Some((rule, fallback, lines)) = settings_of(bytes) else {
        return Ok(None);
    };
    let Some(rule) = rule_of(rule) else {
        return Ok(None);
    };
    let fallback = u32::from(fallback);
    if MOST_PERCENT < fallback {
        return Ok(None);
    }
    match read_calls(alloc, catalog, lines)? {
        Some(calls) => Ok(Some(Logged {
            rule,
            fallback,
            calls,
        })),
        None => Ok(None),
    }
}

/// The rule's byte, the fallback's, and what stands behind them.
fn settings_of(bytes: &[u8]) -> Option<(u8, u8, &[u8])>
    ensures { MatchOption result (length bytes.now < 2) (λ s. bytes.now ≡ s.0 ∷ s.1 ∷ s.2.now) }
{
    let (rule, rest) = bytes.split_first()?;
    let (fallback, lines) = rest.split_first()?;
    Some((*rule, *fallback, lines))
}

/// The rule of a byte.
fn rule_of(byte: u8) -> Option<Rule>
    ensures { result ≡ rule_of byte }
{
    match byte {
        0 => Some(Rule::Plain),
        1 => Some(Rule::Reorder),
        _ => None,
    }
}

/// The calls whose lines these bytes are, exactly where they are the lines of some that fit.
pub fn read_calls(
    alloc: Global,
    catalog: &Catalog,
    bytes: &[u8],
) -> Result<Option<Vec<Call>>, Memory>
    ensures calls { IfOk result (λ found. AreCalls catalog.now bytes.now (option_map (λ calls. calls.items) found)) }
    ensures fit { IfOk result (λ found. IfSome found (λ calls. All (λ call. takes catalog.now call ≡ true) calls.items)) }
{
    catalog.schema(); // which says that its names, bounds and types are in order
    let mut again = Vec::new(alloc);
    match take_lines(Calls::new(alloc), catalog, bytes, &mut again)? {
        Some(calls) => Ok(Some(calls.into_vec())),
        None => Ok(None),
    }
}
