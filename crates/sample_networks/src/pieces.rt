//! Rows of tables, as TOML.

pub(crate) const SETTINGS: &str = "\
[network]
currency = \"840\"
date = \"0314\"
host_ticks = 100
advice_ticks = 50
";

pub(crate) const SHORT_TIMERS: &str = "\
[network]
currency = \"840\"
date = \"0314\"
host_ticks = 4
advice_ticks = 5
";

pub(crate) const SLOW_ADVICES: &str = "\
[network]
currency = \"840\"
date = \"0314\"
host_ticks = 100
advice_ticks = 100
";

pub(crate) const NODE_A: &str = "\
[[node]]
name = \"A\"
id = \"1001\"
";

pub(crate) const NODE_B: &str = "\
[[node]]
name = \"B\"
id = \"1003\"
";

pub(crate) const NODE_H: &str = "\
[[node]]
name = \"H\"
id = \"1002\"
";

pub(crate) const NODE_P: &str = "\
[[node]]
name = \"P\"
id = \"1003\"
";

pub(crate) const NODE_Q: &str = "\
[[node]]
name = \"Q\"
id = \"1004\"
";

pub(crate) const LINK_AB: &str = "\
[[link]]
name = \"AB\"
ends = [\"A\", \"B\"]
ticks = 3
";

pub(crate) const SHORT_LINK_AB: &str = "\
[[link]]
name = \"AB\"
ends = [\"A\", \"B\"]
ticks = 2
";

pub(crate) const LINK_AH: &str = "\
[[link]]
name = \"AH\"
ends = [\"A\", \"H\"]
ticks = 3
";

pub(crate) const LINK_BH: &str = "\
[[link]]
name = \"BH\"
ends = [\"B\", \"H\"]
ticks = 3
";

pub(crate) const LINK_AP: &str = "\
[[link]]
name = \"AP\"
ends = [\"A\", \"P\"]
ticks = 3
";

pub(crate) const LINK_AQ: &str = "\
[[link]]
name = \"AQ\"
ends = [\"A\", \"Q\"]
ticks = 3
";

pub(crate) const LINK_PH: &str = "\
[[link]]
name = \"PH\"
ends = [\"P\", \"H\"]
ticks = 3
";

pub(crate) const LINK_QH: &str = "\
[[link]]
name = \"QH\"
ends = [\"Q\", \"H\"]
ticks = 3
";

pub(crate) const SLOW_LINK: &str = "\
[[link]]
name = \"SLOW\"
ends = [\"A\", \"H\"]
ticks = 4000
";

pub(crate) const SPARE_LINK: &str = "\
[[link]]
name = \"SPARE\"
ends = [\"A\", \"H\"]
ticks = 4000
";

pub(crate) const QUICK_LINK: &str = "\
[[link]]
name = \"QUICK\"
ends = [\"A\", \"H\"]
ticks = 1
";

pub(crate) const ACQUIRER_AT_A: &str = "\
[[acquirer]]
id = \"400001\"
node = \"A\"
";

pub(crate) const SECOND_ACQUIRER_AT_A: &str = "\
[[acquirer]]
id = \"400002\"
node = \"A\"
";

pub(crate) const SECOND_ACQUIRER_AT_B: &str = "\
[[acquirer]]
id = \"400002\"
node = \"B\"
";

pub(crate) const SECOND_ACQUIRER_AT_H: &str = "\
[[acquirer]]
id = \"400002\"
node = \"H\"
";

/// Cards that begin with 4. No node may approve them by itself.
pub(crate) const ISSUER_AT_H: &str = "\
[[issuer]]
name = \"I\"
prefix = \"4\"
home = \"H\"
named = []
ceiling = 0
";

/// Cards that begin with 4. A may approve them by itself.
pub(crate) const ISSUER_NAMES_A: &str = "\
[[issuer]]
name = \"I\"
prefix = \"4\"
home = \"H\"
named = [\"A\"]
ceiling = 1000
";

/// Cards that begin with 4. A and B may approve them by themselves.
pub(crate) const ISSUER_NAMES_A_AND_B: &str = "\
[[issuer]]
name = \"I\"
prefix = \"4\"
home = \"H\"
named = [\"A\", \"B\"]
ceiling = 500
";

/// Cards that begin with 4. A and H may approve them by themselves.
pub(crate) const ISSUER_NAMES_A_AND_H: &str = "\
[[issuer]]
name = \"I\"
prefix = \"4\"
home = \"H\"
named = [\"A\", \"H\"]
ceiling = 1500
";

/// Cards that begin with 5, with their home at B.
pub(crate) const SECOND_ISSUER_AT_B: &str = "\
[[issuer]]
name = \"J\"
prefix = \"5\"
home = \"B\"
named = []
ceiling = 0
";

/// Cards that begin with 5, with their home at H.
pub(crate) const SECOND_ISSUER_AT_H: &str = "\
[[issuer]]
name = \"J\"
prefix = \"5\"
home = \"H\"
named = []
ceiling = 0
";

pub(crate) const A_BY_SLOW_OR_SPARE: &str = "\
[[route]]
node = \"A\"
prefix = \"4\"
links = [\"SLOW\", \"SPARE\"]
";

/// For cards that begin with 5.
pub(crate) const SECOND_BY_QUICK: &str = "\
[[route]]
node = \"A\"
prefix = \"5\"
links = [\"QUICK\"]
";

pub(crate) const A_BY_AB: &str = "\
[[route]]
node = \"A\"
prefix = \"4\"
links = [\"AB\"]
";

pub(crate) const A_BY_AH: &str = "\
[[route]]
node = \"A\"
prefix = \"4\"
links = [\"AH\"]
";

pub(crate) const A_BY_AP_OR_AQ: &str = "\
[[route]]
node = \"A\"
prefix = \"4\"
links = [\"AP\", \"AQ\"]
";

pub(crate) const A_BY_AP_OR_AH: &str = "\
[[route]]
node = \"A\"
prefix = \"4\"
links = [\"AP\", \"AH\"]
";

pub(crate) const B_BY_BH: &str = "\
[[route]]
node = \"B\"
prefix = \"4\"
links = [\"BH\"]
";

pub(crate) const P_BY_PH: &str = "\
[[route]]
node = \"P\"
prefix = \"4\"
links = [\"PH\"]
";

pub(crate) const Q_BY_QH: &str = "\
[[route]]
node = \"Q\"
prefix = \"4\"
links = [\"QH\"]
";

/// Cards that begin with 5.
pub(crate) const SECOND_BY_AB: &str = "\
[[route]]
node = \"A\"
prefix = \"5\"
links = [\"AB\"]
";

pub(crate) const A_1000: &str = "\
[[stand_in]]
node = \"A\"
prefix = \"4\"
day = 1000
single = 1000
";

pub(crate) const A_1000_SINGLE_600: &str = "\
[[stand_in]]
node = \"A\"
prefix = \"4\"
day = 1000
single = 600
";

pub(crate) const A_300: &str = "\
[[stand_in]]
node = \"A\"
prefix = \"4\"
day = 300
single = 1000
";

pub(crate) const B_200: &str = "\
[[stand_in]]
node = \"B\"
prefix = \"4\"
day = 200
single = 1000
";

pub(crate) const H_500: &str = "\
[[stand_in]]
node = \"H\"
prefix = \"4\"
day = 500
single = 500
";
