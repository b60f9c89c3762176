//! The tenants by number: their names, their logs, and how many queries of each are open.

ghost use Rattle.std.specs.Prelude.{◌≡◌, ◌<◌, [], IfOk, List, MatchOption, OnErr, OnOk, Some, length, slice_get};
ghost use Rattle.pf_model.specs.Log.{Change, Rules, store_of};
ghost use Rattle.pf_store.specs.Standing.{IsLog, LogData};
ghost use Rattle.pf_core.specs.Seats.{AreTenants, IsFree, IsUnknown, Seats, TenantsData, count_at, counted_as, is_named, settled};

use pf_base::{OutOfMemory, Tenant};
use pf_query::MOST_TENANTS;
use pf_store::TenantLog;
use std::alloc::Global;
use std::collections::HashMap;
use std::marker::Model;

/// A name that is to be known, and the key under which it will be found.
#[derive(Drop)]
pub struct Newcomer {
    name: Tenant,
    key: String,
}

impl Model for Newcomer {
    ghost use Rattle.std.specs.Prelude.{◌≡◌, List, ℕ, string_bytes};

    ghost Value = { List ℕ };

    ghost view = { λ n. n.name };

    ghost invariant = { λ n. string_bytes n.key ≡ n.name };
}

/// A tenant that an entry is to name: its number, a copy of its log, and its name, where it is new.
#[derive(Drop)]
pub struct Seat {
    pub number: u32,
    pub log: TenantLog,
    pub newcomer: Option<Newcomer>,
}

/// The tenants by number, and their numbers by name.
#[derive(Drop)]
pub struct Tenants {
    names: Vec<Tenant>,
    numbers: HashMap<String, u32>,
    logs: Vec<TenantLog>,
    counts: Vec<u32>,
}

impl Model for Tenants {
    ghost use Rattle.pf_core.specs.Seats.{AreTenants, FindsNames, TenantsData};

    ghost Value = { TenantsData };

    ghost view = { λ t. record { names = t.names.items; logs = t.logs.items; counts = t.counts.items } };

    ghost invariant = { λ t. AreTenants (record { names = t.names.items; logs = t.logs.items; counts = t.counts.items }) × FindsNames t.names.items t.numbers };
}

/// A name as it is kept.
fn named(alloc: Global, name: &Tenant) -> Result<Newcomer, OutOfMemory>
    ensures { IfOk result (λ n. n ≡ name.now) }
{
    Ok(Newcomer {
        name: name.clone()?,
        key: String::from_str(alloc, name.as_str())?,
    })
}

impl Tenants {
    /// No tenants.
    pub fn new(alloc: Global) -> Tenants
        ensures { result ≡ record { names = []; logs = []; counts = [] } }
    {
        Tenants {
            names: Vec::new(alloc),
            numbers: HashMap::new(alloc),
            logs: Vec::new(alloc),
            counts: Vec::new(alloc),
        }
    }

    /// The names by number.
    pub fn names(&self) -> &[Tenant]
        ensures { result.now ≡ self.now.names }
    {
        &self.names
    }

    /// Whether a tenant has this name.
    pub fn is_named(&self, number: u32, name: &Tenant) -> bool
        ensures { result ≡ is_named self.now.names number name.now }
    {
        match self.names.get(number as usize) {
            Some(known) => known == name,
            None => false,
        }
    }

    /// The number of a known tenant.
    fn number_of(&self, name: &Tenant) -> Option<u32>
        ensures found { MatchOption result (IsUnknown self.now.names name.now) (λ u. slice_get self.now.names u ≡ Some name.now) }
        ensures tenants { AreTenants self.now }
    {
        self.numbers.get(name.as_str()).copied()
    }

    /// The number of open queries of a tenant, 0 for one that is not known.
    pub fn count(&self, number: u32) -> u32
        ensures count { result ≡ count_at self.now.counts number }
        ensures tenants { AreTenants self.now }
    {
        self.counts.get(number as usize).copied().unwrap_or(0)
    }

    /// Puts another number of open queries of a tenant.
    pub fn set_count(&mut self, number: u32, count: u32)
        requires { number < length self.old.counts }
        ensures { self.new ≡ counted_as self.old number count }
    {
        self.counts[number as usize] = count;
    }

    /// A copy of a tenant's log.
    fn log_of(&self, number: u32) -> Result<TenantLog, OutOfMemory>
        requires { number < length self.now.logs }
        ensures { IfOk result (λ l. slice_get self.now.logs number ≡ Some l) }
    {
        Ok(self.logs[number as usize].clone()?)
    }

    /// How often samples of a tenant were deleted.
    pub fn generation(&self, number: u32) -> Result<u64, OutOfMemory>
        requires { number < length self.now.names }
        ensures tenants { AreTenants self.now }
        ensures generation { IfOk result (λ g. (rules : Rules) (d : LogData) (log : List Change) → slice_get self.now.logs number ≡ Some d → IsLog rules d log → g ≡ (store_of rules log).generation) }
    {
        let pin = self.logs[number as usize].pin()?;
        Ok(pin.generation)
    }

    /// The place of a tenant by its name. None where it is new, and as many are known as may be.
    #[tactic(auto, using(crate::proofs::Numbers::known_log, crate::proofs::Numbers::known_seat))]
    pub fn seat(
        &self,
        alloc: Global,
        window: u64,
        name: &Tenant,
    ) -> Result<Option<Seat>, OutOfMemory>
        ensures { IfOk result (λ s. Seats self.now (record { window = window }) name.now s) }
    {
        if let Some(number) = self.number_of(name) {
            return Ok(Some(Seat {
                number,
                log: self.log_of(number)?,
                newcomer: None,
            }));
        }
        if self.names.len() >= MOST_TENANTS as usize {
            return Ok(None);
        }
        Ok(Some(Seat {
            number: self.names.len() as u32,
            log: TenantLog::open(alloc, window)?,
            newcomer: Some(named(alloc, name)?),
        }))
    }

    /// Puts in a seat's log, and its name, where it is new. Where memory ran out, nothing is changed.
    pub fn settle(&mut self, seat: Seat) -> Result<(), OutOfMemory>
        requires { IsFree self.old seat.number seat.newcomer }
        ensures ok { OnOk result (self.new ≡ settled self.old seat.number seat.log seat.newcomer) }
        ensures err { OnErr result (self.new ≡ self.old) }
    {
        let Seat {
            number,
            log,
            newcomer,
        } = seat;
        let Some(Newcomer { name, key }) = newcomer else {
            self.logs[number as usize] = log;
            return Ok(());
        };
        self.names.reserve(1)?;
        self.logs.reserve(1)?;
        self.counts.reserve(1)?;
        self.numbers.insert(key, number)?;
        self.names.push_reserved(name);
        self.logs.push_reserved(log);
        self.counts.push_reserved(0);
        Ok(())
    }
}
