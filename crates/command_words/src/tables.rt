// The commands and their options.
ghost use Rattle.std.specs.Prelude.{◌≡◌, map};
ghost use Rattle.command_words.specs.Tables.{commands};
ghost use Rattle.command_words.specs.Rows.{cmd_of};

use crate::rows::{CommandRow, OptionRow};

macro_rules! valued {
    ($name:literal) => {
        OptionRow {
            name: $name,
            is_flag: false,
        }
    };
}

macro_rules! flag {
    ($name:literal) => {
        OptionRow {
            name: $name,
            is_flag: true,
        }
    };
}

macro_rules! offered {
    ($name:literal, $options:ident) => {
        CommandRow {
            name: $name,
            options: $options.as_slice(),
        }
    };
}

static OF_ONCE: [OptionRow<'static>; 7] = [
    valued!("workers"),
    valued!("replicas"),
    valued!("rule"),
    valued!("fallback"),
    valued!("state"),
    flag!("drain"),
    flag!("batons"),
];

static OF_INIT: [OptionRow<'static>; 3] = [valued!("rule"), valued!("fallback"), flag!("over")];

static OF_RUN: [OptionRow<'static>; 6] = [
    valued!("workers"),
    valued!("replicas"),
    valued!("checkpoint"),
    valued!("state"),
    flag!("drain"),
    flag!("batons"),
];

static OF_REPLAY: [OptionRow<'static>; 4] = [
    valued!("workers"),
    valued!("replicas"),
    valued!("state"),
    flag!("batons"),
];

static OF_NONE: [OptionRow<'static>; 0] = [];

static OF_GEN: [OptionRow<'static>; 12] = [
    valued!("kind"),
    valued!("number"),
    valued!("batches"),
    valued!("size"),
    valued!("keys"),
    valued!("ops"),
    valued!("reads"),
    valued!("updates"),
    valued!("hot"),
    valued!("warehouses"),
    valued!("customers"),
    valued!("items"),
];

static OF_BENCH: [OptionRow<'static>; 18] = [
    valued!("kind"),
    valued!("number"),
    valued!("batches"),
    valued!("size"),
    valued!("keys"),
    valued!("ops"),
    valued!("reads"),
    valued!("updates"),
    valued!("hot"),
    valued!("warehouses"),
    valued!("customers"),
    valued!("items"),
    valued!("workers"),
    valued!("replicas"),
    valued!("rule"),
    valued!("fallback"),
    flag!("drain"),
    flag!("batons"),
];

static OF_MIX: [OptionRow<'static>; 8] = [
    valued!("number"),
    valued!("batches"),
    valued!("size"),
    valued!("warehouses"),
    valued!("customers"),
    valued!("items"),
    valued!("workers"),
    valued!("rule"),
];

static OF_NODES: [OptionRow<'static>; 4] = [
    valued!("nodes"),
    valued!("rule"),
    valued!("state"),
    flag!("drain"),
];

/// The commands of the program.
pub fn commands() -> [CommandRow<'static>; 10]
    ensures { map cmd_of result ≡ commands }
{
    [
        offered!("once", OF_ONCE),
        offered!("init", OF_INIT),
        offered!("run", OF_RUN),
        offered!("replay", OF_REPLAY),
        offered!("check", OF_NONE),
        offered!("gen", OF_GEN),
        offered!("bench", OF_BENCH),
        offered!("audit", OF_NONE),
        offered!("mix", OF_MIX),
        offered!("nodes", OF_NODES),
    ]
}
