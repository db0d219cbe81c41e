//! The time zone of the machine.

use jiff::Timestamp;
use jiff::tz::{SystemTimeZone, TimeZoneDatabase};

/// The zone that the machine shows times in: that of the variable `TZ`, and where it isn't set that of /etc/localtime.
/// Where neither can be read it is UTC.
#[derive(Drop)]
pub struct MachineZone {
    names: TimeZoneDatabase,
    zone: Option<SystemTimeZone>,
}

impl MachineZone {
    pub fn read(rt: &HostRuntime) -> MachineZone {
        MachineZone {
            names: TimeZoneDatabase::new(rt.alloc()),
            zone: SystemTimeZone::read(rt).ok(),
        }
    }

    /// How many seconds east of UTC the zone is at the moment, which is in seconds since 1970-01-01T00:00:00Z. Outside of
    /// the years -9999 to 9999 it is 0.
    pub fn offset_at(&self, moment: i64) -> i32 {
        let (Some(zone), Ok(instant)) = (&self.zone, Timestamp::from_second(moment)) else {
            return 0;
        };
        match zone.time_zone(&self.names) {
            Ok(zone) => zone.to_offset(instant).seconds(),
            Err(_) => 0,
        }
    }
}
