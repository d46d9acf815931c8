//! What is printed for files that were read.

ghost use Rattle.std.specs.Prelude.{◌≡◌, Err, List, Ok, Result, Some, None, ℕ, option_copied, option_map, IfErr, IfOk, IsErr};
ghost use Rattle.cable_cuts.specs.Fate.{HaveBroughtUp};
ghost use Rattle.cli_args.specs.Words.{named_inspection, named_view};
ghost use Rattle.cli_args.specs.declared.call.CutView.TheVariants.{All as AllCuts, One as OneCut, Picture as CutPicture};
ghost use Rattle.cli_args.specs.declared.call.Inspection.TheVariants.{Graph as IsGraph, Keys as IsKeys, Load as IsLoad, LoadGraph as IsLoadGraph, Tables as IsTables};
ghost use Rattle.cli_args.specs.declared.call.Work.TheVariants as work;
ghost use Rattle.fabric_cli.specs.Faults.{IsOfRun};
ghost use Rattle.fabric_cli.specs.Serving.{asked_port, changes_in, looked_at, second_stop, shares_in, texts_with, traced};
ghost use Rattle.fabric_cli.specs.Serving.{ComesTo, CutComes, EndsIn, comparison_text, discovery_stop, dump_ending, dump_stop, found_ending, plan_ending, viewed, viewed_by, viewed_from, viewed_of, viewed_over};
ghost use Rattle.fabric_cli.specs.Serving.{ended, import_stop, imported, imported_as, imported_by, rule_of, topology_stop, yes_or_no};
ghost use Rattle.dump_file.specs.Dump.{dump_of};
ghost use Rattle.fabric_parts.specs.declared.limits.Limits.TheVariants.{Large};
ghost use Rattle.netdiscover_file.specs.Discovery.{discovery_of};
ghost use Rattle.topo_file.specs.Topology.{topology_within};
ghost use Rattle.step_results.specs.AtLine.{AtLine};
ghost use Rattle.step_results.specs.TextGives.{TextGives};
ghost use Rattle.topology_import.specs.declared.fault.ImportCause.{ImportCause};
ghost use Rattle.fabric_cli.specs.declared.faults.Stop.TheVariants.{NoMemory};
ghost use Rattle.subnet_core.specs.BringUp.{up_in};
ghost use Rattle.script_lines.specs.NamedPort.{adapter_place};
ghost use Rattle.subnet_core.specs.Inventory.{large_inventory_of};

use crate::faults::{ForeignCause, Stop};
use audit_loads::{load_text, load_text_found};
use audit_routes::{Audit, audit, audit_discovery};
use cable_cuts::{cut_text, cuts_text, needed};
use cable_looks::needed_looks;
use cli_args::{CutView, DumpView, Inspection};
use dump_file::{Dump, DumpFault};
use fabric_graph::graph_text;
use fabric_loads::{own_load_text, own_looks};
use fabric_parts::Limits;
use fabric_tables::{keys_text, tables_text};
use netdiscover_file::{Discovery, DiscoveryFault, is_discovery};
use packet_trace::trace_text;
use partition_reports::{changes_text, listed_shares};
use rooted_import::rooted_topology_text;
use script_lines::named_cable;
use std::alloc::{AllocError, Global};
use subnet_core::{
    Comparison, LargeInventory, RunFault, ScriptCause, Subnet, bring_up_by, compare, left_by,
    read_large_inventory,
};
use topo_file::{LargeTopology, TopoFault};
use topology_import::{ImportFault, topology_text};
use updn_routes::TieRule;

/// The listing of a subnet that is brought up.
pub fn listed<'a>(
    alloc: Global,
    topology: &[u8],
    partitions: Option<&[u8]>,
    balanced: bool,
) -> Result<Vec<u8>, Stop<'a>>
    ensures exact { ComesTo (λ text. text.items)
        (texts_with topology.now (option_copied partitions.entry) (work.Check balanced)) result }
    ensures fault { IfErr result IsOfRun }
{
    match bring_up_by(alloc, topology, partitions, rule_of(balanced)) {
        Ok(subnet) => text_or_stop(subnet.listing()),
        Err(fault) => Err(Stop::Run(fault)),
    }
}

/// The rule of ties by which routes are.
pub fn rule_of(balanced: bool) -> TieRule
    ensures { result ≡ rule_of balanced }
{
    if balanced {
        TieRule::Balanced
    } else {
        TieRule::LeastPort
    }
}

/// The shares in a subnet, of one port alone if it is given.
pub fn shared<'a>(
    alloc: Global,
    topology: &[u8],
    partitions: Option<&[u8]>,
    port: Option<&str>,
) -> Result<Vec<u8>, Stop<'a>>
    ensures exact { ComesTo (λ text. text.items)
        (texts_with topology.now (option_copied partitions.entry) (work.Shares (option_map (λ word. word.now) port.entry))) result }
    ensures fault { IfErr result IsOfRun }
{
    match read_large_inventory(alloc, topology, partitions) {
        Ok(inventory) => shares_in(alloc, &inventory, port),
        Err(fault) => Err(Stop::Run(fault)),
    }
}

fn shares_in<'a>(
    alloc: Global,
    inventory: &LargeInventory,
    port: Option<&str>,
) -> Result<Vec<u8>, Stop<'a>>
    ensures exact { ComesTo (λ text. text.items) (ended (shares_in (Ok inventory.now) (option_map (λ word. word.now) port.entry))) result }
    ensures fault { IfErr result IsOfRun }
{
    match asked_port(inventory, port) {
        Ok(asked) => text_or_stop(listed_shares(alloc, inventory.configuration(), asked)),
        Err(cause) => Err(Stop::Run(RunFault::Port(cause))),
    }
}

/// The GUID of the port that an argument names, if it is given.
fn asked_port(inventory: &LargeInventory, port: Option<&str>) -> Result<Option<u64>, ScriptCause>
    ensures { result ≡ asked_port inventory.now.plan (option_map (λ word. word.now) port.entry) }
{
    match port {
        Some(word) => Ok(Some(inventory.named_port(word.as_bytes())?)),
        None => Ok(None),
    }
}

/// What changes if the second partition file replaces the first.
pub fn changed<'a>(
    alloc: Global,
    topology: &[u8],
    partitions: Option<&[u8]>,
    second: Option<&[u8]>,
) -> Result<Vec<u8>, Stop<'a>>
    ensures exact { ComesTo (λ text. text.items)
        (texts_with topology.now (option_copied partitions.entry) (work.Diff (option_copied second.entry))) result }
    ensures fault { IfErr result IsOfRun }
{
    match read_large_inventory(alloc, topology, partitions) {
        Ok(before) => changes_from(alloc, &before, topology, second),
        Err(fault) => Err(Stop::Run(fault)),
    }
}

fn changes_from<'a>(
    alloc: Global,
    before: &LargeInventory,
    topology: &[u8],
    second: Option<&[u8]>,
) -> Result<Vec<u8>, Stop<'a>>
    ensures exact { ComesTo (λ text. text.items)
        (ended (changes_in (Ok before.now) (large_inventory_of topology.now (option_copied second.entry)))) result }
    ensures fault { IfErr result IsOfRun }
{
    match read_large_inventory(alloc, topology, second) {
        Ok(after) => text_or_stop(changes_text(
            alloc,
            before.configuration(),
            after.configuration(),
        )),
        Err(fault) => Err(second_stop(fault)),
    }
}

/// The stop for an error of a subnet with the second partition file: the topology is the same.
fn second_stop<'a>(fault: RunFault) -> Stop<'a>
    ensures reported { result ≡ second_stop fault }
    ensures fault { IsOfRun result }
{
    match fault {
        RunFault::Partitions { line, cause } => Stop::Second { line, cause },
        other => Stop::Run(other),
    }
}

/// What the fabric of a subnet holds, after a script, if there is one.
pub fn inspected<'a>(
    alloc: Global,
    topology: &[u8],
    partitions: Option<&[u8]>,
    what: &Inspection<&str>,
    script: Option<&[u8]>,
    balanced: bool,
) -> Result<Vec<u8>, Stop<'a>>
    ensures exact { ComesTo (λ text. text.items) (texts_with topology.now (option_copied partitions.entry)
        (work.Inspect (named_inspection what.now) (option_copied script.entry) balanced)) result }
    ensures fault { IfErr result IsOfRun }
{
    match left_by(alloc, topology, partitions, rule_of(balanced), script) {
        Ok(subnet) => looked_at(alloc, &subnet, what),
        Err(fault) => Err(Stop::Run(fault)),
    }
}

fn looked_at<'a>(
    alloc: Global,
    subnet: &Subnet,
    what: &Inspection<&str>,
) -> Result<Vec<u8>, Stop<'a>>
    ensures exact { ComesTo (λ text. text.items)
        (ended (looked_at subnet.now.inventory (up_in subnet.now) (named_inspection what.now))) result }
    ensures fault { IfErr result IsOfRun }
{
    match what {
        Inspection::Tables => tabled(alloc, subnet),
        Inspection::Keys => keyed(alloc, subnet),
        Inspection::Trace(port, dlid, p_key) => traced(alloc, subnet, port, *dlid, *p_key),
        Inspection::Graph => drawn(alloc, subnet),
        Inspection::Load { all } => loaded(alloc, subnet, *all),
        Inspection::LoadGraph { all } => loads_drawn(alloc, subnet, *all),
    }
}

/// The LFTs and MFTs, with the directed routes of the discovery that brought the fabric up.
fn tabled<'a>(alloc: Global, subnet: &Subnet) -> Result<Vec<u8>, Stop<'a>>
    ensures exact { ComesTo (λ text. text.items) (ended (looked_at subnet.now.inventory (up_in subnet.now) IsTables)) result }
    ensures fault { IfErr result IsOfRun }
{
    let inventory = subnet.inventory();
    let ports = inventory.configuration().ports();
    let graph = subnet.routes().graph();
    text_or_stop(tables_text(alloc, inventory.topology(), ports, graph, subnet.fabric()))
}

/// The P_Key tables.
fn keyed<'a>(alloc: Global, subnet: &Subnet) -> Result<Vec<u8>, Stop<'a>>
    ensures exact { ComesTo (λ text. text.items) (ended (looked_at subnet.now.inventory (up_in subnet.now) IsKeys)) result }
    ensures fault { IfErr result IsOfRun }
{
    let inventory = subnet.inventory();
    let ports = inventory.configuration().ports();
    text_or_stop(keys_text(alloc, inventory.topology(), ports, subnet.fabric()))
}

/// The picture, with the ranks that the routes go by.
fn drawn<'a>(alloc: Global, subnet: &Subnet) -> Result<Vec<u8>, Stop<'a>>
    ensures exact { ComesTo (λ text. text.items) (ended (looked_at subnet.now.inventory (up_in subnet.now) IsGraph)) result }
    ensures fault { IfErr result IsOfRun }
{
    let inventory = subnet.inventory();
    text_or_stop(graph_text(
        alloc,
        inventory.topology(),
        inventory.configuration(),
        subnet.routes(),
        subnet.fabric(),
        &[],
    ))
}

/// How many pairs go over each cable: those that may talk, or all.
fn loaded<'a>(alloc: Global, subnet: &Subnet, all: bool) -> Result<Vec<u8>, Stop<'a>>
    ensures exact { ComesTo (λ text. text.items) (ended (looked_at subnet.now.inventory (up_in subnet.now) (IsLoad all))) result }
    ensures fault { IfErr result IsOfRun }
{
    let inventory = subnet.inventory();
    text_or_stop(own_load_text(
        alloc,
        inventory.topology(),
        inventory.configuration().ports(),
        subnet.routes().lids(),
        subnet.fabric(),
        all,
    ))
}

/// The picture in which cables show how many pairs go over them: those that may talk, or all.
fn loads_drawn<'a>(alloc: Global, subnet: &Subnet, all: bool) -> Result<Vec<u8>, Stop<'a>>
    ensures exact { ComesTo (λ text. text.items) (ended (looked_at subnet.now.inventory (up_in subnet.now) (IsLoadGraph all))) result }
    ensures fault { IfErr result IsOfRun }
{
    let inventory = subnet.inventory();
    let (topology, configuration) = (inventory.topology(), inventory.configuration());
    let (routes, fabric) = (subnet.routes(), subnet.fabric());
    let ports = configuration.ports();
    let looks = own_looks(alloc, topology, ports, routes.lids(), fabric, all)?;
    text_or_stop(graph_text(
        alloc,
        topology,
        configuration,
        routes,
        fabric,
        looks.as_slice(),
    ))
}

/// The path of a packet from the port that an argument names.
fn traced<'a>(
    alloc: Global,
    subnet: &Subnet,
    port: &str,
    dlid: u16,
    p_key: u16,
) -> Result<Vec<u8>, Stop<'a>>
    ensures exact { ComesTo (λ text. text.items)
        (ended (traced subnet.now.inventory (up_in subnet.now) dlid p_key (adapter_place subnet.now.inventory.plan port.now))) result }
    ensures fault { IfErr result IsOfRun }
{
    let inventory = subnet.inventory();
    match inventory.adapter_place(port.as_bytes()) {
        Ok(from) => text_or_stop(trace_text(
            alloc,
            inventory.topology(),
            subnet.fabric(),
            from,
            dlid,
            p_key,
        )),
        Err(cause) => Err(Stop::Run(RunFault::Port(cause))),
    }
}

/// What the loss of cables between switches would do to the fabric of a subnet.
pub fn cut<'a>(
    alloc: Global,
    topology: &[u8],
    partitions: Option<&[u8]>,
    view: CutView<&str>,
    balanced: bool,
) -> Result<Vec<u8>, Stop<'a>>
    ensures exact { ComesTo (λ text. text.items)
        (texts_with topology.now (option_copied partitions.entry) (work.Cuts (named_view view.entry) balanced)) result }
    ensures fault { IfErr result IsOfRun }
{
    match bring_up_by(alloc, topology, partitions, rule_of(balanced)) {
        Ok(subnet) => cuts_of(alloc, &subnet, view),
        Err(fault) => Err(Stop::Run(fault)),
    }
}

fn cuts_of<'a>(alloc: Global, subnet: &Subnet, view: CutView<&str>) -> Result<Vec<u8>, Stop<'a>>
    requires { HaveBroughtUp subnet.now.inventory.plan subnet.now.routes }
    ensures exact { CutComes subnet.now.inventory (up_in subnet.now) (named_view view.entry) result }
    ensures fault { IfErr result IsOfRun }
{
    match view {
        CutView::All => all_cuts_of(alloc, subnet),
        CutView::One { first, second } => cut_of(alloc, subnet, first, second),
        CutView::Picture => needed_drawn(alloc, subnet),
    }
}

fn all_cuts_of<'a>(alloc: Global, subnet: &Subnet) -> Result<Vec<u8>, Stop<'a>>
    requires { HaveBroughtUp subnet.now.inventory.plan subnet.now.routes }
    ensures exact { CutComes subnet.now.inventory (up_in subnet.now) AllCuts result }
    ensures fault { IfErr result IsOfRun }
{
    let inventory = subnet.inventory();
    let (topology, configuration) = (inventory.topology(), inventory.configuration());
    text_or_stop(cuts_text(alloc, topology, configuration, subnet.routes()))
}

fn cut_of<'a>(
    alloc: Global,
    subnet: &Subnet,
    first: &str,
    second: &str,
) -> Result<Vec<u8>, Stop<'a>>
    requires { HaveBroughtUp subnet.now.inventory.plan subnet.now.routes }
    ensures exact { CutComes subnet.now.inventory (up_in subnet.now) (OneCut first.now second.now) result }
    ensures fault { IfErr result IsOfRun }
{
    let inventory = subnet.inventory();
    let topology = inventory.topology();
    match named_cable(topology, first.as_bytes(), second.as_bytes()) {
        Ok(cable) => {
            let configuration = inventory.configuration();
            text_or_stop(cut_text(alloc, topology, configuration, subnet.routes(), cable))
        }
        Err(cause) => Err(Stop::Run(RunFault::Port(cause))),
    }
}

/// The picture with the cables in red that the fabric cannot do without.
fn needed_drawn<'a>(alloc: Global, subnet: &Subnet) -> Result<Vec<u8>, Stop<'a>>
    requires { HaveBroughtUp subnet.now.inventory.plan subnet.now.routes }
    ensures exact { CutComes subnet.now.inventory (up_in subnet.now) CutPicture result }
    ensures fault { IfErr result IsOfRun }
{
    let inventory = subnet.inventory();
    let (topology, configuration) = (inventory.topology(), inventory.configuration());
    let (routes, fabric) = (subnet.routes(), subnet.fabric());
    let needed = needed(alloc, topology, routes)?;
    let looks = needed_looks(alloc, needed.as_slice())?;
    text_or_stop(graph_text(
        alloc,
        topology,
        configuration,
        routes,
        fabric,
        looks.as_slice(),
    ))
}

/// The comparison of two scripts for the port that an argument names.
pub fn compared<'a>(
    alloc: Global,
    topology: &[u8],
    partitions: Option<&[u8]>,
    first: &[u8],
    second: &[u8],
    port: &str,
) -> Result<Vec<u8>, Stop<'a>>
    ensures exact { ComesTo (λ text. text.items)
        (texts_with topology.now (option_copied partitions.entry) (work.Compare first.now second.now port.now)) result }
    ensures fault { IfErr result IsOfRun }
{
    match compare(alloc, topology, partitions, first, second, port.as_bytes()) {
        Ok(comparison) => text_or_stop(comparison_text(alloc, comparison)),
        Err(fault) => Err(Stop::Run(fault)),
    }
}

/// A topology from what `ibnetdiscover` printed, with the SM on the port of that GUID, if one is given, and with the top switches as
/// roots, if they are asked for.
pub fn imported<'a>(
    alloc: Global,
    netdiscover: &[u8],
    manager: Option<u64>,
    roots: bool,
) -> Result<Vec<u8>, Stop<'a>>
    ensures exact { ComesTo (λ text. text.items) (ended (imported manager roots netdiscover.now)) result }
    ensures fault { IfErr result IsOfRun }
{
    match netdiscover_file::read(alloc, netdiscover) {
        Ok(discovery) => imported_by(alloc, &discovery, manager, roots),
        Err(fault) => Err(discovery_stop(fault)),
    }
}

fn imported_by<'a>(
    alloc: Global,
    discovery: &Discovery,
    manager: Option<u64>,
    roots: bool,
) -> Result<Vec<u8>, Stop<'a>>
    ensures exact { ComesTo (λ text. text.items) (ended (imported_as (imported_by roots discovery.now manager))) result }
    ensures fault { IfErr result IsOfRun }
{
    if roots {
        import_or_stop(rooted_topology_text(alloc, discovery, manager))
    } else {
        import_or_stop(topology_text(alloc, discovery, manager))
    }
}

fn import_or_stop<'a>(made: Result<Vec<u8>, ImportFault>) -> Result<Vec<u8>, Stop<'a>>
    ensures exact { (given : Result (List ℕ) (AtLine ImportCause)) → TextGives (λ text. text.items) made given
        → ComesTo (λ text. text.items) (ended (imported_as given)) result }
    ensures fault { IfErr result IsOfRun }
{
    match made {
        Ok(text) => Ok(text),
        Err(error) => Err(import_stop(error)),
    }
}

pub fn discovery_stop<'a>(fault: DiscoveryFault) -> Stop<'a>
    ensures reported { result ≡ discovery_stop fault }
    ensures fault { IsOfRun result }
{
    match fault {
        DiscoveryFault::NoMemory => Stop::NoMemory,
        DiscoveryFault::At { line, cause } => Stop::Foreign {
            line,
            cause: ForeignCause::Discovery(cause),
        },
    }
}

pub fn import_stop<'a>(error: ImportFault) -> Stop<'a>
    ensures reported { result ≡ import_stop error }
    ensures fault { IsOfRun result }
{
    match error {
        ImportFault::NoMemory => Stop::NoMemory,
        ImportFault::At { line, cause } => Stop::Foreign {
            line,
            cause: ForeignCause::Import(cause),
        },
    }
}

/// What is printed of a dump's LFTs.
#[derive(Drop)]
pub enum DumpOutput {
    /// Whether the routes are safe.
    Audited(Audit),
    /// How many pairs go over each cable.
    Loaded(Vec<u8>),
}

/// A look at a dump's LFTs for a topology, or for what `ibnetdiscover` printed. The dump was read before, and its fault counts once
/// the other file has none.
pub fn viewed<'a>(
    alloc: Global,
    view: DumpView,
    fabric: &[u8],
    dump: &Result<Dump, DumpFault>,
) -> Result<DumpOutput, Stop<'a>>
    ensures exact { (tables : List ℕ) → TextGives (λ dump. dump) dump.now (dump_of tables)
        → EndsIn dump_ending (ended (viewed view fabric.now tables)) result }
    ensures fault { IfErr result IsOfRun }
{
    if is_discovery(fabric) {
        return viewed_from(alloc, view, fabric, dump);
    }
    viewed_over_topology(alloc, view, fabric, dump)
}

fn viewed_over_topology<'a>(
    alloc: Global,
    view: DumpView,
    topology: &[u8],
    dump: &Result<Dump, DumpFault>,
) -> Result<DumpOutput, Stop<'a>>
    ensures exact { (tables : List ℕ) → TextGives (λ dump. dump) dump.now (dump_of tables)
        → EndsIn dump_ending (ended (viewed_over view (topology_within Large topology.now) tables)) result }
    ensures fault { IfErr result IsOfRun }
{
    match topo_file::read_within(alloc, topology, Limits::Large) {
        Ok(plan) => viewed_over(alloc, view, &plan, dump),
        Err(fault) => Err(topology_stop(fault)),
    }
}

fn viewed_from<'a>(
    alloc: Global,
    view: DumpView,
    netdiscover: &[u8],
    dump: &Result<Dump, DumpFault>,
) -> Result<DumpOutput, Stop<'a>>
    ensures exact { (tables : List ℕ) → TextGives (λ dump. dump) dump.now (dump_of tables)
        → EndsIn dump_ending (ended (viewed_from view (discovery_of netdiscover.now) tables)) result }
    ensures fault { IfErr result IsOfRun }
{
    match netdiscover_file::read(alloc, netdiscover) {
        Ok(found) => viewed_of(alloc, view, &found, dump),
        Err(fault) => Err(discovery_stop(fault)),
    }
}

fn viewed_of<'a>(
    alloc: Global,
    view: DumpView,
    found: &Discovery,
    dump: &Result<Dump, DumpFault>,
) -> Result<DumpOutput, Stop<'a>>
    ensures exact { (tables : List ℕ) → TextGives (λ dump. dump) dump.now (dump_of tables)
        → EndsIn dump_ending (ended (viewed_of view found.now (dump_of tables))) result }
    ensures fault { IfErr result IsOfRun }
{
    match dump {
        Ok(dump) => found_output(alloc, view, found, dump),
        Err(fault) => Err(dump_stop(*fault)),
    }
}

fn found_output<'a>(
    alloc: Global,
    view: DumpView,
    found: &Discovery,
    dump: &Dump,
) -> Result<DumpOutput, Stop<'a>>
    ensures exact { EndsIn dump_ending (ended (found_ending view found.now dump.now)) result }
    ensures fault { IfErr result IsOfRun }
{
    match view {
        DumpView::Audit { all } => {
            Ok(DumpOutput::Audited(audit_discovery(alloc, found, dump, all)?))
        }
        DumpView::Load => Ok(DumpOutput::Loaded(load_text_found(alloc, found, dump)?)),
    }
}

fn viewed_over<'a>(
    alloc: Global,
    view: DumpView,
    plan: &LargeTopology,
    dump: &Result<Dump, DumpFault>,
) -> Result<DumpOutput, Stop<'a>>
    ensures exact { (tables : List ℕ) → TextGives (λ dump. dump) dump.now (dump_of tables)
        → EndsIn dump_ending (ended (viewed_by view plan.now (dump_of tables))) result }
    ensures fault { IfErr result IsOfRun }
{
    match dump {
        Ok(dump) => plan_output(alloc, view, plan, dump),
        Err(fault) => Err(dump_stop(*fault)),
    }
}

fn plan_output<'a>(
    alloc: Global,
    view: DumpView,
    plan: &LargeTopology,
    dump: &Dump,
) -> Result<DumpOutput, Stop<'a>>
    ensures exact { EndsIn dump_ending (ended (plan_ending view plan.now dump.now)) result }
    ensures fault { IfErr result IsOfRun }
{
    match view {
        DumpView::Audit { all } => Ok(DumpOutput::Audited(audit(alloc, plan, dump, all)?)),
        DumpView::Load => Ok(DumpOutput::Loaded(load_text(alloc, plan, dump)?)),
    }
}

pub fn topology_stop<'a>(fault: TopoFault) -> Stop<'a>
    ensures reported { result ≡ topology_stop fault }
    ensures fault { IsOfRun result }
{
    match fault {
        TopoFault::NoMemory => Stop::NoMemory,
        TopoFault::At { line, cause } => Stop::Run(RunFault::Topology { line, cause }),
    }
}

pub fn dump_stop<'a>(fault: DumpFault) -> Stop<'a>
    ensures reported { result ≡ dump_stop fault }
    ensures fault { IsOfRun result }
{
    match fault {
        DumpFault::NoMemory => Stop::NoMemory,
        DumpFault::At { line, cause } => Stop::Foreign {
            line,
            cause: ForeignCause::Dump(cause),
        },
    }
}

fn comparison_text(alloc: Global, comparison: Comparison) -> Result<Vec<u8>, AllocError>
    ensures { IfOk result (λ text. text.items ≡ comparison_text comparison) }
{
    let agree = yes_or_no(comparison.scripts_agree);
    let equal = yes_or_no(comparison.events_equal);
    let text = format!(in alloc; "scripts agree: {agree}\nevents equal: {equal}\n")?;
    Ok(text.into_bytes())
}

fn yes_or_no(truth: bool) -> &'static str
    ensures { result.now ≡ yes_or_no truth }
{
    if truth { "yes" } else { "no" }
}

/// A text, or out of memory.
pub fn text_or_stop<'a>(text: Result<Vec<u8>, AllocError>) -> Result<Vec<u8>, Stop<'a>>
    ensures made { IfOk result (λ made. text ≡ Ok made) }
    ensures fault { IfErr result (λ stop. (stop ≡ NoMemory) × IsErr text) }
{
    match text {
        Ok(text) => Ok(text),
        Err(_) => Err(Stop::NoMemory),
    }
}
