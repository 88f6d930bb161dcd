//! What instances share, and what they do not.

ghost use Rattle.fir_source_laws.specs.working.InstanceLaws.{InstancesCountNoWhen, InstancesShareNothing, InstancesStoreBelow, InstancesTellByLeaf};
ghost use Rattle.fir_source_laws.specs.working.ModuleLaws.{InstancesAreOfTheirModules, MainIsOnTop, NothingInsideIsInput};
ghost use Rattle.fir_source_laws.specs.working.PlaceLaws.{ModulesMeanOneThing};
ghost use Rattle.fir_source_laws.specs.working.PortLaws.{PortsAreOne, PortsReadAsStored};
ghost use Rattle.fir_source_laws.specs.working.TreeLaws.{PortsAreLeaves, TreesHaveTheirInstances};

/// An instance's port and the port of its module are one leaf: what names the port within the module and what
/// names it where the instance is declared have one path from the main module on, and one value
/// (FIRRTL spec, "Instances", "Ports").
pub fn ports_are_one_leaf()
    ensures { PortsAreOne }
{}

/// So where values are settled, what statements store at such a port, from either side, is what both sides read
/// of it (FIRRTL spec, "Instances", "Ports").
pub fn ports_read_as_stored()
    ensures { PortsReadAsStored }
{}

/// Instances of two names share nothing, wherever they stand: no leaf, no word of the state, no array; nor do
/// the instances within them (FIRRTL spec, "Instances").
pub fn instances_share_nothing()
    ensures { InstancesShareNothing }
{}

/// The statements of an instance's module, and of those within it, store below the path of the instance alone
/// (FIRRTL spec, "Instances").
pub fn instances_store_below_their_paths()
    ensures { InstancesStoreBelow }
{}

/// What they leave at a leaf hangs on what was stored there, and on no other leaf (FIRRTL spec, "Instances").
pub fn instances_store_by_leaf()
    ensures { InstancesTellByLeaf }
{}

/// The statement that declares an instance stores what the body of its module stores at its path, whatever whens
/// stand round it (FIRRTL spec, "Instances", "Conditional Last Connect Semantics").
pub fn instances_count_no_when()
    ensures { InstancesCountNoWhen }
{}

/// Below each instance in the tree of a circuit stands the module that the instance names, where no two
/// instances of a module have one name (FIRRTL spec, "Instances", "Modules").
pub fn instances_are_of_their_modules()
    ensures { InstancesAreOfTheirModules }
{}

/// At the top of the tree stands the module with the circuit's name (FIRRTL spec, "Circuits").
pub fn main_module_is_on_top()
    ensures { MainIsOnTop }
{}

/// Of all that stands within modules, the ports of instances among it, no leaf takes its value from outside of
/// the circuit (FIRRTL spec, "Ports", "Instances").
pub fn nothing_inside_is_input()
    ensures { NothingInsideIsInput }
{}

/// The leaves of an instance's ports are leaves of the module that holds it, and each is driven
/// (FIRRTL spec, "Instances").
pub fn ports_of_instances_are_leaves()
    ensures { PortsAreLeaves }
{}

/// All leaves and arrays of an instance, and all words and arrays of its state, are those of the module that
/// holds it too (FIRRTL spec, "Instances").
pub fn trees_have_what_their_instances_have()
    ensures { TreesHaveTheirInstances }
{}

/// A module means the same wherever its instances stand: what its statements, and those of the modules within
/// it, store below the path of an instance is told by what is below that path alone (FIRRTL spec, "Instances",
/// "Modules").
pub fn modules_mean_one_thing()
    ensures { ModulesMeanOneThing }
{}
