//! The limits of networks, of what is asked of one, and of the files about it: of each the greatest that is allowed. The
//! definitions and the code of all crates above name them. They keep every sum of the crates above within 64 bits, and a
//! network within the memory of a small machine.

/// Demand histories of a network: more past departures than stay alike.
pub const MOST_HISTORIES: u8 = 32;

/// Booking periods of a history: a year by months, and its last weeks each.
pub const MOST_PERIODS: u8 = 16;

/// Legs of a network: the flights of a hub in one day, or the sections of a few trains. A leg's number fits a byte.
pub const MOST_LEGS: usize = 64;

/// Products of a network: four fares on each of 64 journeys.
pub const MOST_PRODUCTS: usize = 256;

/// Physical seats of a leg, and authorised seats of one: more than any aircraft has, and most trains.
pub const MOST_SEATS: u16 = 999;

/// Thresholds of a leg: they cut its fares into at most ten buckets, about as many as nests are run with.
pub const MOST_THRESHOLDS: usize = 9;

/// The fare of a product and a threshold, in whole currency units: eight digits, for currencies of small units too.
pub const MOST_FARE: u32 = 99_999_999;

/// The refund percentage of a product: all of the fare.
pub const MOST_REFUND: u8 = 100;

/// Legs of a product: a journey with three changes.
pub const MOST_LEGS_OF_A_PRODUCT: usize = 4;

/// Seats asked for of a product in one history: as many as may be authorised on a leg, since no more can be sold.
pub const MOST_DEMAND: u32 = 999;

/// The same in all histories together, which is also the most authorised seats that a leg has in all of them.
pub const MOST_TOTAL_DEMAND: u32 = MOST_DEMAND * MOST_HISTORIES as u32;

/// Seats of one request: as many as may be authorised on a leg.
pub const MOST_PARTY: u16 = MOST_SEATS;

/// The number of a booking: twelve digits, far more than a stream has lines.
pub const LAST_BOOKING: u64 = BOOKING_LIMIT - 1;

/// What the number of a booking stays below.
pub const BOOKING_LIMIT: u64 = 1_000_000_000_000;

/// Bytes of a network file, 4 MiB: over six times those of the longest canonical file.
pub const MOST_NETWORK_BYTES: usize = 4_194_304;

/// Bytes of a certificate file, 64 KiB: over three times those of the longest that is written.
pub const MOST_CERTIFICATE_BYTES: usize = 65_536;

/// Bytes of a stream of commands, 4 GiB: years of requests, and fewer than 500 million of them.
pub const MOST_STREAM_BYTES: u64 = 4_294_967_296;
