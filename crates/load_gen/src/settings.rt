// What a workload is made by.

/// The settings of a workload of accesses to single rows.
#[derive(Clone, Copy, Debug, PartialEq, Eq)]
pub struct Ycsb {
    /// Which list of words it is drawn from.
    pub number: u32,
    /// How many keys there are: 100 to 1,000,000.
    pub keys: u32,
    /// How many accesses a request makes: 1 to 16.
    pub ops: u32,
    /// How many accesses of a hundred read: 0 to 100, and together with the updates at most 100.
    pub reads: u32,
    /// How many accesses of a hundred write a row anew; those that neither read nor write anew change a row.
    pub updates: u32,
    /// How many accesses of a hundred go to the first hundredth of the keys: 0 to 100.
    pub hot: u32,
}
