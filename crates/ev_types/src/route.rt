// Where a run over a port listens, and to where it connects.
use crate::addr::Addr;
use crate::settings::Settings;

/// Where a run over a port listens, to where it connects for each link, and with which settings. As many links are opened as these
/// allow.
///
/// Own; libevent's sample le-proxy takes the two addresses as its words.
#[derive(Clone, Copy, Debug, PartialEq, Eq)]
pub struct Route {
    pub listen: Addr,
    pub to: Addr,
    pub settings: Settings,
}
