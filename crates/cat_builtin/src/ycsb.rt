// The catalogue `ycsb`: one table, and one procedure that goes over a list of accesses to it.

/// Its text.
pub const YCSB: &str = r#"{"tables":[
{"name":"ycsb","key":["int"],"cols":["int","int","int","int","int","int","int","int","int","int"]}
],"procs":[
{"name":"txn","args":["list2","int"],
"regs":["int","int","int","int","int","int","int","int","int","int"],
"body":[
  ["each",0,[
    ["if",["eq",["item",1],0],[
      ["need","ycsb",[["item",0]],[0,1,2,3,4,5,6,7,8,9],1],
      ["give",["reg",0]]
    ],[
      ["if",["eq",["item",1],1],[
        ["put","ycsb",[["item",0]],
          [["arg",1],["arg",1],["arg",1],["arg",1],["arg",1],["arg",1],["arg",1],["arg",1],["arg",1],
          ["arg",1]]]
      ],[
        ["need","ycsb",[["item",0]],[0,1,2,3,4,5,6,7,8,9],1],
        ["put","ycsb",[["item",0]],
          [["add",["reg",0],["arg",1]],["reg",1],["reg",2],["reg",3],["reg",4],["reg",5],["reg",6],
          ["reg",7],["reg",8],["reg",9]]],
        ["give",["add",["reg",0],["arg",1]]]
      ]]
    ]]
  ]]
]}
]}"#;
