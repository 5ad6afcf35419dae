// The settings of each command.
use batch_rules::verdicts::Rule;

/// When the rows of the database are listed.
#[derive(Clone, Copy, Debug, PartialEq, Eq)]
pub enum Listing {
    /// After each answer.
    Each,
    /// After the last one.
    Last,
}

/// What kind of requests a workload has.
#[derive(Clone, Copy, Debug, PartialEq, Eq)]
pub enum Load {
    /// Reads and writes of single rows, by the cloud benchmark.
    Ycsb,
    /// Order entry.
    Tpcc,
}

/// How many requests there are, at most 1,000,000 in all, and what they are drawn from.
#[derive(Clone, Copy, Debug, PartialEq, Eq)]
pub struct Amount {
    /// The number of the workload that they are drawn from, from 0 to 9,999,999.
    pub number: u32,
    /// How many batches there are, from 1 to 1,000.
    pub batches: u32,
    /// How many new requests a batch has, from 1 to 10,000.
    pub size: u32,
}

/// What the requests of the cloud benchmark access.
#[derive(Clone, Copy, Debug, PartialEq, Eq)]
pub struct Accesses {
    /// How many keys there are, from 100 to 1,000,000.
    pub keys: u32,
    /// How many accesses a request makes, from 1 to 16.
    pub ops: u32,
    /// How many accesses of a hundred read, from 0 to 100.
    pub reads: u32,
    /// How many accesses of a hundred write a row anew, from 0 to 100, and with the reads at most 100. Those
    /// that do neither change a row.
    pub updates: u32,
    /// How many accesses of a hundred go to the first hundredth of the keys, from 0 to 100.
    pub hot: u32,
}

/// What order entry begins with.
#[derive(Clone, Copy, Debug, PartialEq, Eq)]
pub struct Stock {
    /// How many warehouses there are, from 1 to 4, each with ten districts.
    pub warehouses: u32,
    /// How many customers a district has, from 30 to 3,000.
    pub customers: u32,
    /// How many items there are, from 100 to 100,000.
    pub items: u32,
}

/// The requests that a generator makes. What belongs to the other kind has no effect.
#[derive(Clone, Copy, Debug, PartialEq, Eq)]
pub struct Workload {
    /// Of which kind the requests are.
    pub kind: Load,
    /// How many there are, and what they are drawn from.
    pub amount: Amount,
    /// What those of the cloud benchmark access.
    pub accesses: Accesses,
    /// What order entry begins with.
    pub stock: Stock,
}

/// `once`: a script, in memory alone.
#[derive(Clone, Copy, Debug, PartialEq, Eq)]
pub struct Once {
    /// How many workers run a batch of one replica, from 1 to 64.
    pub workers: u32,
    /// How many replicas run each batch, from 1 to 8.
    pub replicas: u32,
    /// By which rule requests wait.
    pub rule: Rule,
    /// Of how many requests of a hundred at least have to wait for them to run again in the same batch, from
    /// 0 to 101, which is never.
    pub fallback: u32,
    /// When the rows are listed.
    pub listing: Listing,
    /// Whether what waits at the end of the input is run until nothing waits.
    pub drain: bool,
    /// Another way to run again what waits. It changes nothing that is printed.
    pub batons: bool,
}

/// `init`: a new store.
#[derive(Clone, Copy, Debug, PartialEq, Eq)]
pub struct Init {
    /// By which rule requests wait, until a script says another.
    pub rule: Rule,
    /// Of how many requests of a hundred at least have to wait for them to run again in the same batch, from
    /// 0 to 101, which is never.
    pub fallback: u32,
    /// Whether the store is made where there is one already, which is lost then.
    pub over: bool,
}

/// `run`: batches over a store.
#[derive(Clone, Copy, Debug, PartialEq, Eq)]
pub struct Run {
    /// How many workers run a batch of one replica, from 1 to 64.
    pub workers: u32,
    /// How many replicas run each batch, from 1 to 8.
    pub replicas: u32,
    /// Behind each batch whose number this divides a checkpoint is laid: from 0 to 1,000,000, and 0 is
    /// never.
    pub checkpoint: u32,
    /// When the rows are listed.
    pub listing: Listing,
    /// Whether what waits at the end of the input is run until nothing waits.
    pub drain: bool,
    /// Another way to run again what waits. It changes nothing that is printed.
    pub batons: bool,
}

/// `replay`: a store's batches again.
#[derive(Clone, Copy, Debug, PartialEq, Eq)]
pub struct Replay {
    /// How many workers run a batch of one replica, from 1 to 64.
    pub workers: u32,
    /// How many replicas run each batch, from 1 to 8.
    pub replicas: u32,
    /// When the rows are listed.
    pub listing: Listing,
    /// Another way to run again what waits. It changes nothing that is printed.
    pub batons: bool,
}

/// `bench`: a workload that runs, and its counts.
#[derive(Clone, Copy, Debug, PartialEq, Eq)]
pub struct Bench {
    /// What is run.
    pub workload: Workload,
    /// How many workers run a batch of one replica, from 1 to 64.
    pub workers: u32,
    /// How many replicas run each batch, from 1 to 8.
    pub replicas: u32,
    /// By which rule requests wait.
    pub rule: Rule,
    /// Of how many requests of a hundred at least have to wait for them to run again in the same batch, from
    /// 0 to 101, which is never.
    pub fallback: u32,
    /// Whether what waits behind the last batch is run until nothing waits.
    pub drain: bool,
    /// Another way to run again what waits. It changes nothing that is printed.
    pub batons: bool,
}

/// `mix`: order entry beside long readers.
#[derive(Clone, Copy, Debug, PartialEq, Eq)]
pub struct Mix {
    /// How many requests there are, and what they are drawn from.
    pub amount: Amount,
    /// What order entry begins with.
    pub stock: Stock,
    /// How many workers run a batch, from 1 to 64.
    pub workers: u32,
    /// By which rule requests wait.
    pub rule: Rule,
}

/// `nodes`: a script over a database that is split between nodes.
#[derive(Clone, Copy, Debug, PartialEq, Eq)]
pub struct Nodes {
    /// How many nodes there are, from 1 to 8.
    pub nodes: u32,
    /// By which rule requests wait.
    pub rule: Rule,
    /// When the rows are listed.
    pub listing: Listing,
    /// Whether what waits at the end of the input is run until nothing waits.
    pub drain: bool,
}

/// What the arguments ask for.
#[derive(Clone, Copy, Debug, PartialEq, Eq)]
pub enum Command {
    /// A script, run in memory.
    Once(Once),
    /// A new store.
    Init(Init),
    /// Batches over a store.
    Run(Run),
    /// A store's batches, run again.
    Replay(Replay),
    /// A report of `once` against its script.
    Check,
    /// A workload as a script.
    Gen(Workload),
    /// A workload that runs, and its counts.
    Bench(Bench),
    /// The rows of order entry against its conditions.
    Audit,
    /// Order entry with all five of its requests.
    Mix(Mix),
    /// A script on nodes that divide the rows.
    Nodes(Nodes),
}
