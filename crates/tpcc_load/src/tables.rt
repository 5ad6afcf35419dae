// The numbers of the tables, which are those of the definitions of `cat_builtin`.

/// The warehouses.
pub const WAREHOUSES: u16 = 0;

/// The districts of the warehouses.
pub const DISTRICTS: u16 = 1;

/// The customers of the districts.
pub const CUSTOMERS: u16 = 2;

/// The orders that are not delivered yet.
pub const OPEN_ORDERS: u16 = 4;

/// All orders.
pub const ORDERS: u16 = 5;

/// The lines of all orders.
pub const ORDER_LINES: u16 = 6;

/// The items, which all warehouses share.
pub const ITEMS: u16 = 7;

/// What each warehouse has of each item.
pub const STOCKS: u16 = 8;

/// How many customers of a district have one last name.
pub const NAME_COUNTS: u16 = 9;

/// The customers of a district with one last name, by their places in the order of their first names.
pub const NAME_PLACES: u16 = 10;
