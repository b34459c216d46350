//! The types of messages.
ghost use Rattle.std.specs.Prelude.{◌≡◌, IsTrue, true};
ghost use Rattle.message_elements.specs.Groups.{group, is_04xx, is_advice_group, is_answer, is_request, is_reversal, response_kind};
ghost use Rattle.message_elements.specs.Types.{kind_of, kind_text};

/// A message type (ISO 8583:1987).
#[derive(Clone, Copy, Debug, PartialEq, Eq, PartialOrd, Ord, Hash)]
pub enum Kind {
    /// Authorization request.
    K0100,
    /// Authorization request repeat.
    K0101,
    /// Authorization request response.
    K0110,
    /// Authorization advice.
    K0120,
    /// Authorization advice repeat.
    K0121,
    /// Authorization advice response.
    K0130,
    /// Reversal request.
    K0400,
    /// Reversal request repeat.
    K0401,
    /// Reversal request response.
    K0410,
    /// Reversal advice.
    K0420,
    /// Reversal advice repeat.
    K0421,
    /// Reversal advice response.
    K0430,
}

/// What a message of a type is to a node.
#[derive(Clone, Copy, Debug, PartialEq, Eq)]
pub enum Group {
    /// 0100, 0101.
    AuthorizationRequest,
    /// 0110.
    AuthorizationResponse,
    /// 0120, 0121.
    Advice,
    /// 0400, 0401, 0420, 0421.
    Reversal,
    /// 0130, 0430.
    AdviceResponse,
    /// 0410.
    ReversalResponse,
}

impl Group {
    /// Whether nodes store a message of the group, and hand it on until it is acknowledged.
    pub fn is_advice(self) -> bool
        ensures { result ≡ is_advice_group self }
    {
        match self {
            Group::Advice | Group::Reversal => true,
            Group::AuthorizationRequest
            | Group::AuthorizationResponse
            | Group::AdviceResponse
            | Group::ReversalResponse => false,
        }
    }
}

impl Kind {
    /// What a message of the type is to a node.
    pub fn group(self) -> Group
        ensures { result ≡ group self }
    {
        match self {
            Kind::K0100 | Kind::K0101 => Group::AuthorizationRequest,
            Kind::K0110 => Group::AuthorizationResponse,
            Kind::K0120 | Kind::K0121 => Group::Advice,
            Kind::K0400 | Kind::K0401 | Kind::K0420 | Kind::K0421 => Group::Reversal,
            Kind::K0130 | Kind::K0430 => Group::AdviceResponse,
            Kind::K0410 => Group::ReversalResponse,
        }
    }

    /// Whether a message of the type asks for an authorization.
    pub fn is_request(self) -> bool
        ensures { result ≡ is_request self }
    {
        match self {
            Kind::K0100 | Kind::K0101 => true,
            _ => false,
        }
    }

    /// Whether a message of the type answers an authorization request.
    pub fn is_answer(self) -> bool
        ensures { result ≡ is_answer self }
    {
        match self {
            Kind::K0110 => true,
            _ => false,
        }
    }

    /// Whether a message of the type takes a request back, in full or in part.
    pub fn is_reversal(self) -> bool
        ensures { result ≡ is_reversal self }
    {
        match self {
            Kind::K0400 | Kind::K0401 | Kind::K0420 | Kind::K0421 => true,
            _ => false,
        }
    }

    /// Whether the key of such a message is that of its original.
    pub fn is_04xx(self) -> bool
        ensures { result ≡ is_04xx self }
    {
        match self.group() {
            Group::Reversal | Group::ReversalResponse => true,
            Group::AdviceResponse => self == Kind::K0430,
            Group::AuthorizationRequest | Group::AuthorizationResponse | Group::Advice => false,
        }
    }

    /// The type of the response; a response keeps its own.
    pub fn response(self) -> Kind
        ensures { result ≡ response_kind self }
    {
        match self {
            Kind::K0100 | Kind::K0101 => Kind::K0110,
            Kind::K0120 | Kind::K0121 => Kind::K0130,
            Kind::K0400 | Kind::K0401 => Kind::K0410,
            Kind::K0420 | Kind::K0421 => Kind::K0430,
            Kind::K0110 | Kind::K0130 | Kind::K0410 | Kind::K0430 => self,
        }
    }

    /// The type that four bytes write, none where they write none of the twelve.
    #[inline]
    pub fn read(text: &[u8]) -> Option<Kind>
        ensures { result ≡ kind_of text.now }
    {
        match text {
            b"0100" => Some(Kind::K0100),
            b"0101" => Some(Kind::K0101),
            b"0110" => Some(Kind::K0110),
            b"0120" => Some(Kind::K0120),
            b"0121" => Some(Kind::K0121),
            b"0130" => Some(Kind::K0130),
            b"0400" => Some(Kind::K0400),
            b"0401" => Some(Kind::K0401),
            b"0410" => Some(Kind::K0410),
            b"0420" => Some(Kind::K0420),
            b"0421" => Some(Kind::K0421),
            b"0430" => Some(Kind::K0430),
            _ => None,
        }
    }

    /// The four bytes that write the type.
    #[inline]
    pub fn as_slice(self) -> &'static [u8]
        ensures { result.now ≡ kind_text self }
    {
        match self {
            Kind::K0100 => b"0100",
            Kind::K0101 => b"0101",
            Kind::K0110 => b"0110",
            Kind::K0120 => b"0120",
            Kind::K0121 => b"0121",
            Kind::K0130 => b"0130",
            Kind::K0400 => b"0400",
            Kind::K0401 => b"0401",
            Kind::K0410 => b"0410",
            Kind::K0420 => b"0420",
            Kind::K0421 => b"0421",
            Kind::K0430 => b"0430",
        }
    }
}
