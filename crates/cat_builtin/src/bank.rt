// The catalogue `bank`: one table of accounts, and six procedures.

/// Its text.
pub const BANK: &str = r#"{"tables":[
{"name":"acct","key":["int"],"cols":["int"]}
],"procs":[
{"name":"add","args":["int","int"],
"regs":["int"],
"body":[
  ["need","acct",[["arg",0]],[0],1],
  ["put","acct",[["arg",0]],[["add",["reg",0],["arg",1]]]],
  ["give",["add",["reg",0],["arg",1]]]
]},
{"name":"copy","args":["int","int"],
"regs":["int"],
"body":[
  ["need","acct",[["arg",0]],[0],1],
  ["put","acct",[["arg",1]],[["reg",0]]],
  ["give",["reg",0]]
]},
{"name":"set","args":["int","int"],
"regs":[],
"body":[
  ["put","acct",[["arg",0]],[["arg",1]]],
  ["give",["arg",1]]
]},
{"name":"sum","args":["int","int"],
"regs":["int","int"],
"body":[
  ["need","acct",[["arg",0]],[0],1],
  ["need","acct",[["arg",1]],[1],1],
  ["give",["add",["reg",0],["reg",1]]]
]},
{"name":"hop","args":["int","int"],
"regs":["int"],
"body":[
  ["need","acct",[["arg",0]],[0],1],
  ["put","acct",[["reg",0]],[["arg",1]]],
  ["give",["arg",1]]
]},
{"name":"drop","args":["int"],
"regs":[],
"body":[
  ["del","acct",[["arg",0]]]
]}
]}"#;
