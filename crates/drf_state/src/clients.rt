//! Restores the clients of a framework in the sorter.
ghost use Rattle.std.specs.Prelude.{◌≡◌, ◌≤◌, OnOk};
ghost use Rattle.drf_content.specs.Putting.{CanAllBeBack, CanBeLast, put_back, with_all_back, with_last};

use drf_bundle::Quantities;
use drf_role::{ClientPath, Name};
use drf_rows::ClientRow;
use drf_sorter::Sorter;
use std::alloc::{AllocError, Global};

/// Adds a client that holds nothing, with its count, to the sorter.
fn put_client<S: Sorter>(
    alloc: Global,
    sorter: &mut S,
    framework: &Name,
    client: &ClientRow,
) -> Result<(), AllocError>
    requires { CanBeLast (S.content sorter.old) (put_back framework.now client.now) }
    ensures content { OnOk result (S.content sorter.new ≡ with_last (S.content sorter.old) (put_back framework.now client.now)) }
    ensures made { OnOk result ((S.work sorter.old).made ≤ (S.work sorter.new).made) }
{
    let path = ClientPath::new(alloc, &client.role, framework)?;
    let nothing = Quantities::empty(alloc);
    sorter.add(path.copy()?)?;
    sorter.set_active(&path, !client.suppressed);
    sorter.charge(&path, &nothing, client.count)?;
    Ok(())
}

/// Adds the clients of a framework, which hold nothing, to the sorter.
pub(crate) fn put_clients<S: Sorter>(
    alloc: Global,
    sorter: &mut S,
    framework: &Name,
    clients: &[ClientRow],
) -> Result<(), AllocError>
    requires { CanAllBeBack (S.content sorter.old) framework.now clients.now }
    ensures content { OnOk result (S.content sorter.new ≡ with_all_back (S.content sorter.old) framework.now clients.now) }
    ensures made { OnOk result ((S.work sorter.old).made ≤ (S.work sorter.new).made) }
{
    for client in clients {
        put_client(alloc, sorter, framework, client)?;
    }
    Ok(())
}
