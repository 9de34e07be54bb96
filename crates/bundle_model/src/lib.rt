//! The bundles of a history, what a merger writes next, and what a relay retains, as definitions, and
//! their laws. The functions have no body: the contract of each is the law, or a table of small
//! bundles.
#![tactic(auto)]

ghost use Rattle.bundle_model.specs.Laws.{
  BundlesGrow,
  BundlesGrowOn,
  BundlesAreFront,
  BundlesAreDue,
  FinalsAreBundled,
  PlansAreBundles,
  NoPlanIsAll,
  NoPlanRetains,
  OwnPlansRetain,
  ShedKeepsFront,
  ShedKeepsOwn,
  ShedRetainsLess,
};
ghost use Rattle.bundle_model.specs.Tables.{BundleTable};

/// Where the final path goes on, the bundles begin with those that there were.
pub fn bundles_grow()
    ensures { BundlesGrow }
{}

/// So they do while a history grows whose claims agree.
pub fn bundles_grow_on()
    ensures { BundlesGrowOn }
{}

/// The blocks of the bundles are the front of the final path.
pub fn bundles_are_front()
    ensures { BundlesAreFront }
{}

/// Each bundle is due.
pub fn bundles_are_due()
    ensures { BundlesAreDue }
{}

/// Each final block of a base that is reached is in the bundle of its base.
pub fn finals_are_bundled()
    ensures { FinalsAreBundled }
{}

/// The final blocks of a plan are those of a bundle.
pub fn plans_are_bundles()
    ensures { PlansAreBundles }
{}

/// Where there is no further plan, all that is to be stored is stored.
pub fn no_plan_is_all()
    ensures { NoPlanIsAll }
{}

/// Where there is no further plan, no more blocks are retained than are left outside the bundles.
pub fn no_plan_retains()
    ensures { NoPlanRetains }
{}

/// Where a relay shed its own plans alone, it retains exactly these.
pub fn own_plans_retain()
    ensures { OwnPlansRetain }
{}

/// The stored final blocks stay those of the first bundles while plans are shed.
pub fn shed_keeps_front()
    ensures { ShedKeepsFront }
{}

/// A plan of the relay's own has blocks of bundles, or dead ones below their ends.
pub fn shed_keeps_own()
    ensures { ShedKeepsOwn }
{}

/// Each plan that is shed leaves fewer blocks retained.
pub fn shed_retains_less()
    ensures { ShedRetainsLess }
{}

/// Small bundles and plans.
pub fn bundle_table()
    ensures { BundleTable }
{}
