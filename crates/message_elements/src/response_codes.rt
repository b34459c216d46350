//! The response codes that nodes and hosts give, by name (ISO 8583:1987, element 39).

/// Approved.
pub const APPROVED: [u8; 2] = *b"00";

/// Do not honor.
pub const DO_NOT_HONOR: [u8; 2] = *b"05";

/// Invalid card number.
pub const INVALID_CARD_NUMBER: [u8; 2] = *b"14";

/// Transaction not permitted to cardholder.
pub const NOT_PERMITTED_TO_CARDHOLDER: [u8; 2] = *b"57";

/// Exceeds amount limit.
pub const EXCEEDS_AMOUNT_LIMIT: [u8; 2] = *b"61";

/// Response received too late.
pub const RESPONSE_RECEIVED_TOO_LATE: [u8; 2] = *b"68";

/// Issuer or switch inoperative.
pub const ISSUER_OR_SWITCH_INOPERATIVE: [u8; 2] = *b"91";

/// No institution found for routing.
pub const NO_INSTITUTION_FOUND_FOR_ROUTING: [u8; 2] = *b"92";

/// Duplicate transmission.
pub const DUPLICATE_TRANSMISSION: [u8; 2] = *b"94";

/// System malfunction.
pub const SYSTEM_MALFUNCTION: [u8; 2] = *b"96";
