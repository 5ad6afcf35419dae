// What became of each request of an answer, in words.
use aria_base::Memory;
use batch_core::{Answer, Reply};
use proc_lang::End;
use std::alloc::Global;

/// A line for each request of the answer.
pub fn outcomes(alloc: Global, answer: &Answer) -> Result<String, Memory> {
    let mut text = String::new(alloc);
    for line in answer.lines.as_slice() {
        let number = line.q;
        let told = match &line.reply {
            Reply::Ended(End::Done(_)) => format!(in alloc; "request {number} is done\n")?,
            Reply::Ended(End::Back(code)) => format!(in alloc;
                "request {number} failed with {code}\n"
            )?,
            Reply::Ended(End::Trap(_)) => format!(in alloc; "request {number} trapped\n")?,
            Reply::Waits(_) => format!(in alloc; "request {number} waits\n")?,
        };
        text.push_str(told.as_str())?;
    }
    Ok(text)
}
