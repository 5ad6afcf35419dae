// The columns of the rows of order entry, by their places from 0, and how many columns a row has. The names are those
// of the definitions.

/// Of a district: the number of its next order.
pub(crate) const D_NEXT_O_ID: usize = 2;

/// How many columns a district has, all of them numbers.
pub(crate) const DISTRICT_COLUMNS: usize = 3;

/// Of a customer: what its delivered orders cost less what it paid, in cents.
pub(crate) const C_BALANCE: usize = 4;

/// So many columns of a customer are numbers.
pub(crate) const CUSTOMER_NUMBERS: usize = 7;

/// How many columns a customer has. The last one is a text.
pub(crate) const CUSTOMER_COLUMNS: usize = 8;

/// An open order has no columns: its key says all.
pub(crate) const OPEN_ORDER_COLUMNS: usize = 0;

/// Of an order: its customer's number.
pub(crate) const O_C_ID: usize = 0;

/// Of an order: the date of its entry.
pub(crate) const O_ENTRY_D: usize = 1;

/// Of an order: who carries it; 0 where it is not delivered.
pub(crate) const O_CARRIER_ID: usize = 2;

/// How many columns an order has, all of them numbers.
pub(crate) const ORDER_COLUMNS: usize = 5;

/// Of an order's line: the item's number.
pub(crate) const OL_I_ID: usize = 0;

/// Of an order's line: the number of the warehouse that supplies the item.
pub(crate) const OL_SUPPLY_W_ID: usize = 1;

/// Of an order's line: the date of its delivery; 0 where it is not delivered.
pub(crate) const OL_DELIVERY_D: usize = 2;

/// Of an order's line: how many of the item.
pub(crate) const OL_QUANTITY: usize = 3;

/// Of an order's line: what it costs, in cents.
pub(crate) const OL_AMOUNT: usize = 4;

/// How many columns an order's line has, all of them numbers.
pub(crate) const LINE_COLUMNS: usize = 5;

/// Of an item's stock: how many of the item the warehouse has.
pub(crate) const S_QUANTITY: usize = 0;

/// How many columns a stock has, all of them numbers.
pub(crate) const STOCK_COLUMNS: usize = 5;

/// Of a name: how many customers of the district have it.
pub(crate) const NAME_COUNT: usize = 0;

/// Of a place among the customers of a name: the customer's number.
pub(crate) const NAME_C_ID: usize = 0;

/// How many columns a name has, and a place among its customers: one number.
pub(crate) const NAME_COLUMNS: usize = 1;
