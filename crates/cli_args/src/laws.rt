//! Laws of all command lines. Each function's contract is its law; it does nothing.

ghost use Rattle.cli_args.specs.Laws.{FilesAreNamedAsGiven, FilesStandInOrder, NamesKeepTheirBlanks, RoutesAreAsAsked, VersionIsRequested};

/// A file is opened by the very name in the arguments, byte for byte: nothing is removed from it, and nothing is added. For
/// each command the first argument names the topology, and the second the partition file, or the dump of an audit.
pub fn files_are_named_as_given()
    ensures words { FilesAreNamedAsGiven }
    ensures blanks { NamesKeepTheirBlanks }
    ensures order { FilesStandInOrder }
{}

/// The version is requested by `--version` or `-V` as the first argument, whatever comes after it. Behind help it is not, and a
/// command takes neither.
pub fn the_version_is_requested_by_its_flags()
    ensures { VersionIsRequested }
{}

/// Routes of a simulated fabric are balanced if and only if `--balanced` is given. Those of a fabric that `manage` brings up are
/// balanced unless `--least-port` is. A dump has its LFTs, so `--balanced` is refused there, and so it is by commands without it.
pub fn balanced_routes_are_asked_for()
    ensures { RoutesAreAsAsked }
{}
