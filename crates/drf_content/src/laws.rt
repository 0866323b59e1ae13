//! Theorems on the content of a sorter. The functions do nothing: their contracts are proved from the definitions
//! alone.

ghost use Rattle.drf_content.specs.ContentLaws.{ContentIsSound, OrderIsTheTurns, LinesAreTheReports, HeadIsEmpty, ContentFollowsRow, RolesAreFollowed, ClientIsPutBack, ClientsCanBeBack};

/// Proves that a sorter that holds what consistent rows say, with its clients in any order, has a sound content. Its order is the
/// order of a turn, and its lines are those of a report.
pub fn content_law()
    ensures sound { ContentIsSound }
    ensures order { OrderIsTheTurns }
    ensures lines { LinesAreTheReports }
{}

/// Proves that a sorter holds what the new rows say after the roles of a framework change: the clients of new roles are added to
/// it, and the clients of roles that the framework loses are removed.
pub fn roles_law()
    ensures { RolesAreFollowed }
{}

/// Proves that adding a saved row to other rows changes `content_of` by exactly the content of the row. The clients of a
/// framework can be added one by one.
pub fn put_law()
    ensures head { HeadIsEmpty }
    ensures row { ContentFollowsRow }
    ensures client { ClientIsPutBack }
    ensures clients { ClientsCanBeBack }
{}
