//! How signatures are dealt into the zones of their class.
ghost use Rattle.std.specs.Prelude.{◌≡◌, ℕ, ◌+◌, ◌-◌, ◌^◌, ◌<◌, ◌≤◌, length, All, IfOk, IsSome};
ghost use Rattle.kz_model.specs.declared.bundle.Seed.{Seed};
ghost use Rattle.kz_model.specs.Types.Layouts.{place_of};
ghost use Rattle.kz_model.specs.Types.Plan.{shuffled, groups_of, deals_from, bucket_of, shape_at};
ghost use Rattle.kz_model.specs.Zone.Words.{words_after};
ghost use Rattle.kz_plan.specs.Parts.{counts_of, AreGroups, AreParts};
ghost use Rattle.kz_model.specs.Grammar.Tokens.{texts};
ghost use Rattle.kz_plan.specs.Shown.{AreDistinct, AreBuckets};

use crate::grouping::{CLASSES, is_in_use, shape_at, signatures};
use kz_model::{Geometry, Layout, Seed, Words};
use std::alloc::{AllocError, Global};
use std::collections::BTreeMap;
use std::marker::Model;

/// A class in use, with its signatures in the order in which they are dealt.
#[derive(Drop)]
pub(crate) struct Group<'a> {
    class: usize,
    order: Vec<&'a [u8]>,
}

impl<'a> Model for Group<'a> {
    ghost use Rattle.std.specs.Prelude.{◌<◌};
    ghost use Rattle.kz_model.specs.Types.Plan.{Group as Dealt};
    ghost use Rattle.kz_plan.specs.Parts.{counts_of, AreGroups, AreParts};
    ghost use Rattle.kz_model.specs.Grammar.Tokens.{texts};

    ghost Value = { Dealt };

    ghost view = { λ g. record { class = g.class; order = texts g.order.items } };

    ghost invariant = { λ g. g.class < 32 };
}

impl<'a> Group<'a> {
    /// How many signatures there are.
    fn count(&self) -> u32
        requires { length self.now.order ≤ 1024 }
        ensures { result ≡ length self.now.order }
    {
        self.order.len() as u32
    }
}

/// A class in use, with its zones and the bucket of each of its signatures.
#[derive(Drop)]
pub(crate) struct Deal<'g, 'a> {
    group: &'g Group<'a>,
    first: u32,
    zones: u32,
    buckets: BTreeMap<&'a [u8], u32>,
}

impl<'g, 'a> Model for Deal<'g, 'a> {
    ghost use Rattle.std.specs.Prelude.{◌+◌, ◌^◌, ◌<◌};
    ghost use Rattle.kz_model.specs.Types.Plan.{Deal as Dealt};
    ghost use Rattle.kz_plan.specs.Shown.{AreBuckets};

    ghost Value = { Dealt };

    ghost view = { λ d. record {
      class = d.group.now.class;
      first = d.first;
      zones = d.zones;
      order =
          d.group.now.order;
    } };

    ghost invariant = { λ d. (0 < d.zones) × (d.first + d.zones < 2 ^ 32) ×
        AreBuckets d.buckets d.zones d.group.now.order };
}

impl<'g, 'a> Deal<'g, 'a> {
    /// Deals the signatures of a class into so many zones.
    fn new(
        alloc: Global,
        group: &'g Group<'a>,
        first: u32,
        zones: u32,
    ) -> Result<Deal<'g, 'a>, AllocError>
        requires some { 0 < zones }
        requires fits { first + zones < 2 ^ 32 }
        requires few { length group.now.order ≤ 1024 }
        requires distinct { AreDistinct group.now.order }
        ensures { IfOk result (λ deal. deal
            ≡ record { class = group.now.class; first = first; zones = zones; order = group.now.order }) }
    {
        let buckets = buckets(alloc, &group.order, zones)?;
        Ok(Deal {
            group,
            first,
            zones,
            buckets,
        })
    }

    pub(crate) fn class(&self) -> usize
        ensures { result ≡ self.now.class }
    {
        let group = self.group;
        group.class
    }

    /// How many zones the class has.
    pub(crate) fn zones(&self) -> u32
        ensures { result ≡ self.now.zones }
    {
        self.zones
    }

    /// The chunk of the class.
    pub(crate) fn shape(&self) -> Geometry
        ensures { result ≡ shape_at self.now.class }
    {
        let group = self.group;
        shape_at(group.class)
    }

    /// The zone of a signature.
    pub(crate) fn zone_of(&self, signature: &'a [u8]) -> u32
        requires { IsSome (place_of signature.now self.now.order) }
        ensures { result ≡ self.now.first + bucket_of self.now signature.now }
    {
        self.first + *self.buckets.get(&signature).unwrap()
    }
}

/// Swaps each place, from the last down to 1, with one that a word draws.
fn shuffle(order: &mut [&[u8]], words: &mut Words)
    ensures order { (seed : Seed) → (drawn : ℕ) → words.old ≡ words_after seed 0 drawn → order.new
        ≡ shuffled seed drawn order.old }
    ensures words { (seed : Seed) → (drawn : ℕ) → words.old ≡ words_after seed 0 drawn → words.new
        ≡ words_after seed 0 (drawn + (length order.old - 1)) }
{
    for last in (1..order.len()).rev() {
        let other = words.next() as usize % (last + 1);
        order.swap(last, other);
    }
}

/// The bucket of each signature: that at place i goes to bucket `i mod zones`.
fn buckets<'a>(
    alloc: Global,
    order: &[&'a [u8]],
    zones: u32,
) -> Result<BTreeMap<&'a [u8], u32>, AllocError>
    requires some { 0 < zones }
    requires few { length order.now ≤ 1024 }
    requires distinct { AreDistinct (texts order.now) }
    ensures { IfOk result (λ buckets. AreBuckets buckets zones (texts order.now)) }
{
    let mut buckets = BTreeMap::new(alloc);
    for (place, signature) in order.iter().enumerate() {
        buckets.insert(*signature, place as u32 % zones)?;
    }
    Ok(buckets)
}

/// The classes in use, rising, each with its signatures in the order in which they are dealt.
pub(crate) fn groups<'a>(
    alloc: Global,
    layouts: &'a [Layout],
    seed: Seed,
) -> Result<Vec<Group<'a>>, AllocError>
    requires { All (λ layout. layout.size ≤ 8192) layouts.now }
    ensures { IfOk result (λ groups. groups.items ≡ groups_of layouts.now seed) }
{
    let mut words = Words::new(seed, 0);
    let mut groups = Vec::new(alloc);
    for class in 0..CLASSES {
        if is_in_use(layouts, class) {
            let mut order = signatures(alloc, layouts, class)?;
            shuffle(&mut order, &mut words);
            groups.push(Group { class, order })?;
        }
    }
    Ok(groups)
}

/// How many signatures each class in use has.
pub(crate) fn counts(alloc: Global, groups: &[Group]) -> Result<Vec<u32>, AllocError>
    requires { All (λ group. length group.order ≤ 1024) groups.now }
    ensures { IfOk result (λ counts. counts.items ≡ counts_of groups.now) }
{
    groups.iter().map(|group| group.count()).collect(alloc)
}

/// The deals of the classes in use, which have these numbers of zones.
pub(crate) fn deals<'g, 'a>(
    alloc: Global,
    groups: &'g [Group<'a>],
    parts: &[u32],
) -> Result<Vec<Deal<'g, 'a>>, AllocError>
    requires groups { AreGroups groups.now }
    requires parts { AreParts groups.now parts.now }
    ensures { IfOk result (λ deals. deals.items ≡ deals_from 0 groups.now parts.now) }
{
    let mut deals = Vec::new(alloc);
    let mut first = 0;
    for (place, group) in groups.iter().enumerate() {
        let zones = parts[place];
        deals.push(Deal::new(alloc, group, first, zones)?)?;
        first += zones;
    }
    Ok(deals)
}
