// What a workload is made by.

/// The settings of a workload of order entry.
#[derive(Clone, Copy, Debug, PartialEq, Eq)]
pub struct Tpcc {
    /// Which lists of words it is drawn from.
    pub number: u32,
    /// How many warehouses there are: 1 to 4, each with ten districts.
    pub warehouses: u32,
    /// How many customers a district has: 30 to 3,000.
    pub customers: u32,
    /// How many items there are: 100 to 100,000.
    pub items: u32,
}
