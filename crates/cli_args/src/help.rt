//! The program's own texts in help, and for arguments that are refused.

/// The line for the version.
pub(crate) const VERSION_LINE: &str = "fabric 1.0.0\n";

pub(crate) const ABOUT: &str = "An InfiniBand subnet manager over a simulated fabric";

pub(crate) const ABOUT_CHECK: &str =
    "Lists the ports of a subnet by LID, and the members of each partition with their P_Keys";

pub(crate) const ABOUT_SHARES: &str =
    "Lists which ports may talk to each other, and in which partitions";

pub(crate) const ABOUT_DIFF: &str =
    "Lists what changes if another partition file replaces the first";

pub(crate) const ABOUT_TABLES: &str =
    "Prints the LFTs and MFTs of a subnet's switches, as dump_fts and dump_mfts do";

pub(crate) const ABOUT_KEYS: &str = "Prints the P_Key tables of a subnet's ports";

pub(crate) const ABOUT_TRACE: &str = "Prints the path of one packet, and why it ends";

pub(crate) const ABOUT_GRAPH: &str = "Draws a subnet's fabric, as input for Graphviz";

pub(crate) const ABOUT_RUN: &str = "Runs a script in a subnet, and prints what its ports receive";

pub(crate) const ABOUT_SMP: &str = "Answers SMPs at the SM port of a subnet, one after the other";

pub(crate) const ABOUT_MANAGE: &str =
    "Brings up a fabric by the SMPs that it prints, and reads their replies";

pub(crate) const ABOUT_COMPARE: &str =
    "Checks whether two scripts agree for a port, and whether its events are equal";

pub(crate) const ABOUT_CUTS: &str =
    "Prints what the loss of each cable between switches would do, before it is cut";

pub(crate) const ABOUT_IMPORT: &str =
    "Makes a topology from what ibnetdiscover printed of a real fabric";

pub(crate) const ABOUT_AUDIT: &str =
    "Judges the LFTs of a real fabric: whether its routes are safe";

pub(crate) const ABOUT_LOAD: &str = "Prints how many pairs go over each cable between two switches";

pub(crate) const ABOUT_AUDIT_KEYS: &str =
    "Compares the P_Key tables of a real fabric with a partition file";

pub(crate) const ABOUT_EXPLAIN: &str =
    "Explains the code of an error or a refusal, or lists all codes";

/// The help `$before`, then the exit statuses, then `$after`, and at last how codes are explained.
macro_rules! with_statuses {
    ($($before:literal)+, $after:literal) => {
        concat!(
            $($before,)+
            "Exit statuses:
  0  success
  1  an error in the input, printed on standard error in one line
  2  the arguments are refused, or help is requested
  3  out of memory, a file cannot be read, or output cannot be written",
            $after,
            "

`fabric explain CODE` explains the CODE of an error, and `fabric explain` lists all codes."
        )
    };
}

/// The help `$before` of a command that looks at a fabric, then what SCRIPT is for, with `$further` behind it.
macro_rules! with_script {
    ($before:literal, $further:literal) => {
        with_statuses!(
            $before "With SCRIPT the fabric is as the commands of that script leave it" $further ".

",
            ""
        )
    };
}

pub(crate) const STATUSES: &str = with_statuses!(
    "",
    "

LFTs are linear forwarding tables, MFTs multicast forwarding tables, a CA is a channel adapter (HCA),
and the SM the subnet manager.

An error is printed as `fault CODE topology line L`, `fault CODE partitions line L`,
`fault CODE partitions2 line L`, `fault CODE script line L`, `fault CODE script2 line L`,
`fault CODE netdiscover line L`, `fault CODE dump line L`, `fault CODE mfts line L`,
`fault CODE lanes line L`, `fault CODE pkeys line L`, `fault CODE smps line L`,
`fault CODE replies line L`, `fault CODE port`, `fault CODE`,
`fault CODE path PATH ATTRIBUTE MODIFIER`, `fault UR1 SWITCH PORT`, `fault memory`, `fault read NAME`
or `fault write`. An audit of routes that are not safe, or of P_Key tables that do not follow the file,
has status 1, and prints no such line."
);

pub(crate) const NOT_TEXT: &str = "error: an argument is not UTF-8\n";

pub(crate) const NO_SUCH_CODE: &str = "error: there is no such code

For the list of all codes, try 'fabric explain'.
";

pub(crate) const NO_SUCH_NUMBER: &str =
    "error: DLID or PKEY is not a number of 16 bits: decimal, or 0x and hexadecimal digits

For more information, try 'fabric trace --help'.
";

pub(crate) const NO_SUCH_IMPORT: &str =
    "error: --sm takes a GUID as `0x101`, and --roots takes only `auto`

For more information, try 'fabric import --help'.
";

pub(crate) const NO_SUCH_KEYS_GUID: &str = "error: --sm takes a GUID as `0x101`

For more information, try 'fabric audit-keys --help'.
";

pub(crate) const LISTING: &str = with_statuses!(
    "There is a line for each end port by LID, then for each partition its line and one for each of
its members by LID:
  port LID GUID PORT            an end port; port 0 of switch A is A/0
  partition NUMBER BASE NAME    a partition; - for an empty name
  member KEY PORT               a member; the P_Key of a full member is 0x8000 or more

For example, for `P1=0x0001: 0x111=full, 0x121;` in PARTS:
  port 0x0004 0x0000000000000111 h1/1
  partition 1 0x0001 P1
  member 0x8001 h1/1
  member 0x0001 h2/1

",
    ""
);

pub(crate) const SHARES: &str = with_statuses!(
    "There is a line for each two end ports, by LID, and for each partition, by rising base, in which
their P_Keys match; the ports of switches and the SM port are included:
  share PORT PORT BASE    both have a P_Key of this base, and one of them is a full member

With PORT only the lines that name it are printed. Without it, a subnet of more than 320 end ports is
counted, with a line for each partition:
  pairs BASE PAIRS MEMBERS FULL    PAIRS `share` lines; MEMBERS members, of which FULL are full ones

For example, for `P1=0x0001: 0x111=full, 0x121, 0x131;` in PARTS:
  share h1/1 h2/1 0x0001
  share h1/1 h3/1 0x0001

",
    ""
);

pub(crate) const CHANGES: &str = with_statuses!(
    "A line with - goes, a line with + comes, in four parts:
  partition NUMBER BASE NAME          a partition, by base; - for an empty name
  group BASE MGID QKEY MTU RATE SL    the broadcast group of a partition, by base
  member KEY PORT                     a member, by base, then by LID
  share PORT PORT BASE                two ports that may talk, as `shares` lists them; in a subnet of
                                      more than 320 end ports its `pairs` lines

For example, if `P1=0x0001: 0x111=full, 0x121, 0x131;` gets `0x121=full`:
  - member 0x0001 h2/1
  + member 0x8001 h2/1
  + share h2/1 h3/1 0x0001

",
    ""
);

pub(crate) const TABLES: &str = with_script!(
    "For each switch, by LID, its LFT is printed as `dump_fts` of infiniband-diags prints one: a line with
LinearFDBTop, the directed route by which discovery found the switch, its GUID and name; a line for
each LID of an end port to which the LFT leads, with the port; and their count. MFTs that have a port
follow, as `dump_mfts` prints them.

For example, of switch B, which is two hops away:
  Unicast lids [0x0-0x6] of switch DR path slid 0; dlid 0; 0,1,3 guid 0x0000000000000020 (B):
    Lid  Out   Destination
         Port     Info
  0x0001 003 : (Channel Adapter portguid 0x0000000000000101: 'h0')

",
    ""
);

pub(crate) const KEYS: &str = with_script!(
    "There is a line for each end port, by LID, and after that of a switch one for each of its ports that
is cabled to a CA, by number:
  keys PORT KEY ..    the P_Keys of its table, in their order; empty entries are left out

For example, for `P1=0x0001: 0x111=full, 0x121;` in PARTS:
  keys A/2 0xffff 0x8001
  keys h1/1 0x7fff 0x8001

",
    ""
);

pub(crate) const TRACE: &str = with_script!(
    "The first line says whether the port sends the packet. Then there is a line for each port where it
arrives, and for a multicast LID one for each port by which it leaves. The first of these lines that
applies is printed, and the path ends there unless the packet goes on:
  PORT stamps SLID DLID PKEY        the port sends it
  PORT refuses CODE                 the port does not
  NODE in IN drops inbound          port IN enforces partitions, and no P_Key matches
  NODE in IN drops top              the LID is over LinearFDBTop
  NODE in IN drops entry ENTRY      the LFT entry is not a port of the switch
  NODE in IN drops mask             the MFT entry has no other port
  NODE in IN takes                  the LID is the switch's own, or the MFT entry has port 0
  NODE in IN out OUT drops outbound port OUT enforces partitions, and no P_Key matches
  NODE in IN out OUT no cable       port OUT has no cable
  NODE in IN again                  it arrived there before
  NODE in IN out OUT again          a copy of it arrived before where port OUT leads
  NODE in IN out OUT                it goes on
  PORT accepts                      a P_Key of the port matches
  PORT drops key                    none does

For example, for `h1/1 5 0xffff`:
  h1/1 stamps 0x0004 0x0005 0xffff
  A in 2 out 3
  B in 3 out 1
  h2/1 accepts

",
    "; the packet is sent then"
);

pub(crate) const GRAPH: &str = with_script!(
    "The output is in DOT, from which `dot` of Graphviz makes a picture:
  fabric graph TOPO PARTS | dot -Tsvg >fabric.svg

Switches are boxes, by rank, with the roots on top. CAs are ellipses with the LIDs of their ports, in
the colours of their partitions, except the default one. The ends of cables have the numbers of
ports. The SM's node has a double outline.

With --cuts the cables that the fabric cannot do without are red: those for which `fabric cuts`
prints `stops`.

With --load the width and colour of a cable between two switches show how many pairs go over it, in
its busier direction, as `fabric load` prints them (--all counts all pairs). A legend has the five
steps.

Four or more CAs of one port that are attached to one switch and are in the same partitions are a
list, which is one box: a line has the switch's port, the CA and its LID.

",
    "; cut cables are dashed"
);

pub(crate) const REPORT: &str = with_statuses!(
    "The report has one line for each event, in order:
  PORT recv SLID DLID PKEY QP N:HEX     the port receives a packet
  PORT refused CODE                     the port refuses to send one

For example, after the line `send h1/1 5 0xffff 7 2:beef` of a script:
  h2/1 recv 0x0004 0x0005 0xffff 0x000007 2:beef

HEX leaves out the zero bytes at the end of the N bytes.

",
    ""
);

pub(crate) const SMPS: &str = with_statuses!(
    "Each line of SMPS is an SMP with a directed route, as the SM port sends it:
  256:HEX    its 256 bytes; HEX may leave out zero bytes at the end

For each there is a line, before the next is read: the reply as it comes to the SM port, or `none`:
  256:HEX
  none

Empty lines and comments are passed over. What an SMP sets stays set for those after it.

",
    ""
);

pub(crate) const MANAGE: &str = with_statuses!(
    "Each SMP is a line, which is printed and flushed before a line of REPLIES is read:
  smp 256:HEX    its 256 bytes, with a directed route from the SM port

The next line of REPLIES is its reply as it comes to the SM port, or `none`:
  256:HEX        HEX may leave out zero bytes at the end
  none

Empty lines and comments of REPLIES are passed over. Whatever answers is brought up: discovered, its
ports named by LIDs, its P_Key tables and LFTs written, its ports set to Active. The LFTs are those that
`fabric tables --balanced` prints, with --least-port those without that flag. It must have the end ports
and the SM port of TOPO, else the error is SW2, and nothing is written to it. At the end the lines of
`check` are printed, and:
  up: N switches, N ports, N exchanges, N switch ports that do not enforce
How many end ports it has, how many SMPs were printed, and at how many switch ports in front of a CA
port only the CA port keeps partitions apart.

",
    ""
);

pub(crate) const COMPARISON: &str = with_statuses!(
    "Each script runs on the subnet as it is brought up, and two lines are printed:
  scripts agree: yes|no    the ports near PORT have the same commands in both, in the same order
  events equal: yes|no     PORT has the same events in both, in the same order

The ports near PORT are PORT itself and each end port that shares a partition with it, as `shares`
lists them. Commands are compared by their meaning, not by how they are written. What all other
ports do may differ, and which cables are cut. If the scripts agree, the events are equal: it is
proved that `no` never follows `yes`.

",
    ""
);

pub(crate) const ONE_PICTURE: &str =
    "error: --cuts draws the fabric as it is brought up, without SCRIPT and --load; --all needs --load

For more information, try 'fabric graph --help'.
";

pub(crate) const ONE_THIRD_FILE: &str =
    "error: --mft and --sl2vl exclude one another: multicast is not judged by virtual lanes

For more information, try 'fabric audit --help'.
";

pub(crate) const PARTS_OR_DUMP: &str =
    "error: either PARTS is needed, or --dump DUMP without PARTS, SCRIPT, --all and --balanced

For more information, try 'fabric load --help'.
";

pub(crate) const NO_SECOND_PORT: &str = "error: PORT2, the other end of the cable, is missing

For more information, try 'fabric cuts --help'.
";

pub(crate) const CUTS: &str = with_statuses!(
    "There is a line for each cable between two switches, in the order of the topology, and a last one
with their numbers:
  cut PORT PORT keeps N entries N masks N switches
                              without it all end ports stay connected; so many LFT entries change,
                              and MFT entries of partitions' broadcast groups, at so many switches
  cut PORT PORT stops CODE    the fabric cannot be brought up without it: TF9, the switches are not
                              connected; SW3, a cable is too far away; UR1 SWITCH PORT, a pair has
                              no up/down path
  cables N keep N stop N

With two ports the line of the cable between them is printed and, if it keeps, one for each LFT entry
that changes, in the order of the tables; `none` is no port:
  SWITCH lid LID port OUT becomes OUT

Nothing is cut: routes are planned over the fabric as it is brought up.

",
    ""
);

pub(crate) const IMPORT: &str = with_statuses!(
    "The topology has the switches, the CA ports that have a cable, and the cables between them. Ports keep
their GUIDs, since partition files name them: ports of consecutive GUIDs become one CA, whose own GUID
is one less. Names get the characters that a topology allows, and are made different. A comment on
each line has the node, port and LID in the fabric, and comments name the routers that are left out.
ibnetdiscover does not mark the SM. The SM port is the one with the GUID of --sm, which `sminfo`
prints, or else the port at which ibnetdiscover ran, if a comment of it says so.

With --roots auto the topology names roots: the switches that are the most links away from the nearest
switch to which a CA is attached. In a fat tree they are the spines. If a CA is attached to each switch
it names none. Routers count as CAs, and aggregation nodes do not.

For example, for your own fabric and the partition file that it is to have:
  ibnetdiscover >discovered
  fabric import discovered --roots auto >topology
  fabric check topology partitions.conf

A line that ibnetdiscover does not print is refused, and so are lines that contradict each other, and
a fabric that no topology describes.

",
    ""
);

pub(crate) const AUDIT: &str = with_statuses!(
    "FABRIC is what ibnetdiscover printed, of a fabric of any size, or a topology. The LFTs are judged as they
are, whichever SM wrote them; nothing is brought up. Routes are safe, and the status is 0, if and only
if
  - each CA port that has a cable has a LID,
  - from every switch to which a CA is attached, the LFTs lead to each of these LIDs (aggregation nodes
    are left out on both sides),
  - there is no credit loop along all LIDs except the switches' own,
  - the dump and FABRIC have the same switches and CA ports,
  - if a switch sends such a LID to another switch, the entry there is known.
Otherwise the status is 1, and nothing is written on standard error. Without --sl2vl credit loops are
judged as if all packets used one virtual lane (VL). Without --mft multicast is not judged. Routers count
as CAs. Behind a LID stands its port, if one is known.

With --mft the MFTs have to be safe too: no packet to an MLID loops or comes to a switch twice by the port
masks, each member receives what the others send, each switch has an MFT, and each MFT is of a switch of
FABRIC.

With --sl2vl a credit loop counts only if it is one of lanes. A lane is a channel with a VL. Then each
pair of CA ports needs a path record, which has the service level (SL) of its packets, and each two ports
of a switch that such packets use need a row of its SL-to-VL mapping table. Other packets are not judged.
LANES has what `smpquery sl2vl LID PORT` and `saquery PR` print. --mft and --sl2vl exclude one another.

First comes what one file has and the other lacks:
  # passed over: PORT PORT     a cable between these joins no switch
  # no switches               FABRIC has no switch
  no-table SWITCH             the dump has no table of this switch
  no-switch GUID              the dump has a table of a switch that FABRIC lacks
  no-port LID GUID            the LID is of a port that FABRIC lacks
  no-lid PORT                 this CA port has a cable, and no LID by FABRIC or by any row
  untold LID                  dump_fts leaves out the last LID of a table if it is a multiple of 64

Then what else decides. At most eight switches are named, and the others are counted:
  unreached LID (PORT) from N switches: SWITCH .. and N more
                              packets from these, to which a CA is attached, do not come to the CA's LID
  unknown LID (PORT) at N switches: SWITCH ..
                              packets come to these, and the dump leaves out their entry

Then, if there is one, a credit loop, as the ports along it. Each waits for the next one by one of the
LIDs behind them, and the last port for the first one:
  deadlock PORT PORT .. by LIDs LID (PORT) ..   along all LIDs except the switches' own; those of
                                                aggregation nodes count where packets of CAs come
  deadlock aggregation-lids PORT PORT .. by ..  along the same LIDs, if there is none without packets
                                                of aggregation nodes; decides nothing
  deadlock switch-lids PORT PORT .. by LIDs ..  along all LIDs, if there is neither; decides nothing

Then, with --all, what is wrong at each switch, LID by LID; without it such lines are counted:
  hole SWITCH LID (PORT)      it has no port for the LID
  left-out SWITCH LID (PORT)  dump_fts leaves out rows of ports from 128 on (ask ibroute), and the last
                              LID of a table if it is a multiple of 64
  nowhere SWITCH LID (PORT) port P  that port has no cable
  wrong SWITCH LID (PORT) PORT      it leads to another end port, the last one
  loop LID (PORT) SWITCH SWITCH ..  the entries form a loop through these switches
  stray SWITCH LID            it has a port for a LID that is nobody's
  # N lines by switch and LID: --all prints them

Last come counts of pairs of a switch and a LID, by what happens to a packet from there:
  adapters: N pairs, N reached, N holes, N nowhere, N wrong, N loops, N unknown, no deadlock
  transit: N pairs, ..
  aggregation: N pairs, ..
  switches: N pairs, ..
  audit: N pairs, ..
  verdict: safe, as if all packets used one virtual lane; multicast is not judged

The pairs of `adapters:` are of a switch to which a CA is attached and a CA's LID, and only these
decide; those of `transit:` are of another switch and a CA's LID. Aggregation nodes are no CAs here:
`aggregation:`, printed if there are any, counts pairs of a switch and the LID of one. Those of
`switches:` are of a switch's LID; those of `audit:` are all. If routes are not safe, the last line
begins with `verdict: not safe (REASON, ..), as if`; the reasons are no-lid, unreached, deadlock,
mismatch and unknown, for the five conditions above. Each has a line above that says where; for mismatch
that is a line no-table, no-switch or no-port, or `# no switches`.

With --mft these lines stand before the verdict:
  multicast no-table SWITCH   there is no MFT of this switch
  multicast no-switch GUID    there is an MFT of a switch that FABRIC lacks
  multicast no-port SWITCH MLID port P    the mask has a port that the switch does not have
  multicast nowhere SWITCH MLID port P    the mask has a port without a cable
  multicast loop MLID PORT PORT ..        packets leave by these ports, one after the other, and by the
                                          first one again
  multicast copies MLID SWITCH from SWITCH2    what an end port at SWITCH2 sends comes to SWITCH twice
  multicast cut MLID PORT from PORT2, and N more    masks lead to all of them, and what PORT2 sends does
                                          not come to PORT, nor to N more
  multicast: N MLIDs, N with a loop, N with copies, N cut
  # multicast: a member to which no mask leads is unknown, ..
Then the reasons may also be multicast-loop, multicast-copies and multicast-cut. Of an MLID at most one
loop, one switch with copies and one cut are printed.

With --sl2vl these lines stand before the verdict:
  lanes deadlock PORT VL V PORT VL V ..   a credit loop of lanes: each waits for the next one, and the
                                          last one for the first
  lanes no-path LID (PORT) LID2 (PORT2) and N more    no path record from LID to LID2, and to N more LIDs
  lanes no-row SWITCH in P out P2         packets come in at port P and leave by port P2, without a row
  lanes dropped SWITCH in P out P2 SL S   there they are dropped: their VL is 15, which is management's
  lanes: N pairs, N with a path record, SLs S .., VLs V ..
  # lanes: packets of a path record use its SL; other packets are not judged
Then deadlock means such a loop, unknown stands also if a path record or a row is missing, and there is
one more reason, dropped. The verdict ends with `, by virtual lanes; multicast is not judged`.

For example, for your own fabric:
  ibnetdiscover >discovered
  dump_fts >tables
  dump_fts -M >masks
  fabric audit discovered tables --mft masks
  fabric audit discovered tables --sl2vl lanes

",
    ""
);

pub(crate) const LOAD: &str = with_statuses!(
    "A pair is a CA port that is attached to a switch and sends, and a LID of another CA port. Routers
count as CAs, aggregation nodes do not. There are two forms:

  fabric load TOPO PARTS [SCRIPT] [--all]
    brings up the subnet of a topology and partitions. Only pairs that may talk count, or with --all
    all. With SCRIPT the fabric is as the commands of that script leave it, without the cables that
    are down.
  fabric load FABRIC --dump DUMP
    takes the LFTs as they are, whichever SM wrote them; nothing is brought up. FABRIC is what
    ibnetdiscover printed, of a fabric of any size, or a topology. All pairs count.

Each direction of each cable between two switches has a line with the number of pairs that go over it,
from the first port to the second. The greatest load comes first:
  load PORT PORT PAIRS

Then come the greatest load, the least and the mean, of all and of the cables that lead away from the
switches of each level (0 with a CA, 1 beside one of those, and so on), with the ratio of the greatest
load to the mean, and the number of pairs. Lost are those that do not reach the port of their LID,
unknown those that come to an entry that the dump does not show. Both count on the cables that they
use, and in a loop once on each:
  most PAIRS
  least PAIRS
  mean PAIRS
  level LEVEL up|across|down most PAIRS mean PAIRS ratio RATIO
  pairs PAIRS, lost PAIRS, unknown PAIRS

For example, for your own fabric:
  ibnetdiscover >discovered
  dump_fts >tables
  fabric load discovered --dump tables

",
    ""
);

pub(crate) const AUDIT_KEYS: &str = with_statuses!(
    "The tables are compared as they are, whichever SM wrote them; nothing is brought up. The status is 0 if
and only if
  - each end port was read, and has exactly the P_Keys that the file gives it,
  - each switch port that faces a CA port was read and, if it drops packets (in one direction or both),
    has exactly the bases of that CA port.
Otherwise the status is 1, and nothing is written on standard error.

First comes what many differences have in common:
  diagnosis: WORDS

Then each partition that the tables or the file have alone:
  stray BASE N                it stands at N ports, and the file gives it to no port that was read
  absent BASE N               the file gives it to N ports that were read, and it stands at none

Then who may talk by the tables (+) or by the file (-) alone. If a partition has more than 100 such
pairs, they are counted; --all lists them:
  + share PORT PORT BASE
  - pairs BASE N

Then how tables of end ports differ from the file. OpenSM takes the last word that names a port; if
that makes the difference, the line says so:
  extra PORT KEY              the key stands, and the file gives no key of its base
  missing PORT KEY            the file gives the key, and no key of its base stands
  membership PORT KEY         the key stands, and the file gives the other membership
  full PORT                   keys are missing, and the table has no empty place

Then how switch ports differ from the CA ports that they face:
  off everywhere              none of them drops anything
  off PORT                    it drops nothing
  half PORT                   it drops packets in one direction alone
  lacks PORT BASE             it drops packets of this base, which the CA port has
  more PORT BASE              it lets packets of this base through, which the CA port has not
  unread PORT                 its table, or what it enforces, was not read
  cut PORT BASE N             it drops packets between its CA port and N ports that may talk
  trunk PORT lacks BASE       a port between two switches drops packets of this base of the file

Then ports that are not judged:
  moved PORT LID GUID GUID2   ibnetdiscover has GUID at the LID, and smpquery GUID2: collect again
  unread PORT                 its table was not read, or not whose it is

Then what the file lists in vain:
  no-port GUID                no port of the fabric has this GUID
  node-guid GUID PORT ..      it is the GUID of a node, which has these ports
  no-partition PORT           the file gives this port no P_Key
  by the file: N of N pairs may talk in BASE   these are at least half of all pairs

Last come counts:
  ports: N, N as the file, N unread, N moved
  keys: N extra, N missing, N of other membership
  switch ports: N, N off, N half, N unread
  bases: N lacking, N more
  verdict: the tables follow the file

For example, on a node of your own fabric:
  ibnetdiscover >discovered
  tools/collect-keys discovered >pkeys
  fabric audit-keys discovered pkeys partitions.conf

",
    ""
);

pub(crate) const CODES: &str = with_statuses!(
    "A code follows `fault` if a command does not complete, and `refused` in a report:
  TF1 to TF12            an error in the topology
  PF1 to PF9             an error in a partition file
  SF1 to SF7             an error in a script, or in a PORT of `shares`, `trace`, `compare` or `cuts`
  AR1 to AR4             why a port refuses to send a packet
  ND1 to ND7             an error in what ibnetdiscover printed, in `import`
  FT1 to FT7             an error in dumped LFTs, in `audit` and `load`
  FM1 to FM5             an error in dumped MFTs, in `audit` with --mft
  FV1 to FV6             an error in SL-to-VL mapping tables or path records, in `audit` with --sl2vl
  KT1 to KT5             an error in answers of smpquery, in `audit-keys`
  SW1 to SW4, UR1, TP1 to TP3
                         why the fabric of a topology cannot be brought up
  memory, read, write    an error of the machine

With CODE its cause is printed, the exact rule, an input that has it, and the same input corrected.
Without CODE there is a line for each code, with its cause.

For example, `fabric explain PF2` explains a line as `fault PF2 partitions line 3`.

",
    ""
);
