//! The numbers of the elements that nodes read and set, by name (ISO 8583:1987).

/// Primary account number.
pub const CARD_NUMBER: u8 = 2;

/// Processing code.
pub const PROCESSING_CODE: u8 = 3;

/// Amount, transaction.
pub const AMOUNT: u8 = 4;

/// Transmission date and time.
pub const TRANSMISSION_TIME: u8 = 7;

/// Systems trace audit number.
pub const TRACE_AUDIT_NUMBER: u8 = 11;

/// Date, settlement.
pub const SETTLEMENT_DATE: u8 = 15;

/// Acquiring institution identification code.
pub const ACQUIRING_INSTITUTION: u8 = 32;

/// Forwarding institution identification code.
pub const FORWARDING_INSTITUTION: u8 = 33;

/// Response code.
pub const RESPONSE_CODE: u8 = 39;

/// Currency code, transaction.
pub const CURRENCY: u8 = 49;

/// Original data elements.
pub const ORIGINAL_DATA: u8 = 90;

/// Replacement amounts.
pub const REPLACEMENT_AMOUNTS: u8 = 95;
