// What commands can and cannot change: laws of the camera, with nothing to run.
ghost use Rattle.camera.specs.Laws.{DefaultsComeBack, FaultsKeepAddresses, GetsChangeNone, SetsChangeOne};

// A set changes the words of its attribute and of no other.
pub fn sets_change_one()
    ensures stands { SetsChangeOne }
{}

// A get changes no attribute.
pub fn gets_change_none()
    ensures stands { GetsChangeNone }
{}

// A restore gives back what was saved, and nothing else, whatever came in between.
pub fn defaults_come_back()
    ensures stands { DefaultsComeBack }
{}

// A fault has the address of the access that met it, whatever the state.
pub fn faults_keep_addresses()
    ensures stands { FaultsKeepAddresses }
{}
