// What routines are called for.

/// Tells a customer's last order. It is called with the warehouse, the district, whether the customer is told by
/// name, which 0 says is not so, and the name or the customer's number.
pub const ORDER_STATUS: u16 = 0;

/// Delivers the oldest open order of each district. It is called with the warehouse, the carrier and the date.
pub const DELIVERY: u16 = 1;

/// Counts the items that are nearly out of stock. It is called with the warehouse, the district and the quantity
/// below which an item counts.
pub const STOCK_LEVEL: u16 = 2;

/// What a warehouse delivers.
#[derive(Clone, Copy, Debug)]
pub struct Delivery {
    /// The warehouse's number.
    pub w: i64,
    /// Who carries what is delivered.
    pub carrier: i64,
    /// The date of the delivery.
    pub date: i64,
}
